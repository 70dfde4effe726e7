// The subject of the atlas: labels of legs, networks of stations, layers over networks, and maps between them.
#![tactic(auto)]

pub mod both_ways;
pub mod carries;
pub mod either;
pub mod grade;
pub mod grade_table;
mod kinds;
pub mod label;
pub mod leg_list;
pub mod network;
pub mod pairing;
pub mod reading;
pub mod refusal;
pub mod turned;
pub mod without;
pub mod word;
