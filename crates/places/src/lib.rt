// What a call prepares of its rules, so that a rule's record is read once for the call however often it is tried: its
// ruleset, its number there, and where its part words stand. The Rust has rules as structures; these are the four fields
// that beginning a rule needs. Nothing is refused: the table is an accepted one.
#![tactic(auto)]

ghost use Rattle.std.specs.Prelude.{◌≡◌, true, ◌<◌};
ghost use Rattle.defs.specs.Table.{table_fits, records_in};
ghost use Rattle.defs.specs.Ruledef.{starts_of};
ghost use Rattle.places.specs.Places.{place_at, PlaceAsked, Placed};

use defs::ruledef;

// Where a rule stands: its ruleset, its number there, and where its part words begin and end. They are words of 16 bits, since
// a call keeps one for each of 512 rules.
#[derive(Clone, Copy)]
pub struct RulePlace {
    pub set: u16,
    pub number: u16,
    pub from: u16,
    pub to: u16,
}

// The places of as many rules as a table may have, none of them prepared.
pub const NONE: [RulePlace; ruledef::MOST_RULES] = [RulePlace {
    set: 0,
    number: 0,
    from: 0,
    to: 0,
}; ruledef::MOST_RULES];

// One rule's place.
fn place_of(table: &[u16], starts: &[u16], rule: u16) -> RulePlace
    requires table_value { table_fits table.now ≡ true }
    requires starts_value { starts.now ≡ starts_of table.now }
    requires rule_bound { rule < records_in table.now }
    ensures { result ≡ place_at table.now rule }
{
    let set = ruledef::ruleset_of(table, rule);
    let parts = ruledef::parts_of(table, rule);
    RulePlace {
        set: set as u16,
        number: rule - starts[set],
        from: parts.start as u16,
        to: parts.end as u16,
    }
}

// Prepares the rules of a list.
pub fn place_rules(table: &[u16], starts: &[u16], rules: &[u16], places: &mut [RulePlace])
    requires { PlaceAsked table.now starts.now rules.now places.old }
    ensures answers { Placed table.now places.new rules.now }
{
    for &rule in rules {
        places[rule as usize] = place_of(table, starts, rule);
    }
}
