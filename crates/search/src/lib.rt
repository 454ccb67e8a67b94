// Searches over any plant of any cost kind, in work areas that the caller lends.
#![tactic(auto)]

pub mod answer;
mod areas;
mod begin;
pub mod call;
mod calling;
mod check;
pub mod entry;
pub mod entry_order;
pub mod entry_rank;
pub mod fault;
mod follow;
mod live;
mod meet;
mod meeter;
pub mod meeting;
pub mod one_way;
mod out_lanes;
pub mod reply;
mod route_both;
pub mod row;
pub mod rows;
mod scanned;
pub mod serve;
mod side;
pub mod survey;
pub mod told;
mod turn;
mod two_sides;
pub mod two_way;
mod walk_back;
mod watch;
