// The fields of a listing: what they say, as the reader takes them, and their bytes, as the writer lays them. Inside `listing`:
// what the contracts ask of places and sizes a caller proves, and nothing is refused here.
#![tactic(auto)]

pub mod reading;
pub mod spelling;
pub mod writing;
