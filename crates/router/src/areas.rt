// The memory of the program: the lists of its plant, and the work areas of its searches.
use cost::length::Length;
use format::counts::Counts;
use plants::lists::ListsOf;
use search::entry::{Entry, no_entry};
use search::reply::{Done, Reply};
use search::row::Row;
use search::rows::blank_row;
use std::alloc::{AllocError, Global};

// The largest plant that the program takes.
pub const MOST: Counts = Counts {
    nodes: 128,
    lanes: 512,
    landmarks: 4,
};

// Room for a search of the largest plant, from both ends.
#[derive(Drop)]
pub struct SearchRoom {
    pub rows: Vec<Row<Length>>,
    pub back_rows: Vec<Row<Length>>,
    pub queue: Vec<Entry<Length>>,
    pub back_queue: Vec<Entry<Length>>,
}

// Room for the replies to so many calls, and for a route each.
#[derive(Drop)]
pub struct ReplyRoom {
    pub replies: Vec<Reply<Length>>,
    pub routes: Vec<u32>,
}

// Room for the largest plant's lists.
pub fn plant_room(heap: Global) -> Result<ListsOf<Vec<u32>>, AllocError> {
    Ok(ListsOf {
        tails: vec![in heap; 0; 512]?,
        heads: vec![in heap; 0; 512]?,
        costs: vec![in heap; 0; 512]?,
        first_out: vec![in heap; 0; 129]?,
        first_in: vec![in heap; 0; 129]?,
        by_head: vec![in heap; 0; 512]?,
        to: vec![in heap; 0; 512]?,
        from: vec![in heap; 0; 512]?,
    })
}

pub fn search_room(heap: Global) -> Result<SearchRoom, AllocError> {
    Ok(SearchRoom {
        rows: vec![in heap; blank_row(); 128]?,
        back_rows: vec![in heap; blank_row(); 128]?,
        queue: vec![in heap; no_entry(); 513]?,
        back_queue: vec![in heap; no_entry(); 513]?,
    })
}

pub fn reply_room(heap: Global, calls: usize) -> Result<ReplyRoom, AllocError> {
    Ok(ReplyRoom {
        replies: vec![in heap; Ok(Done::Closed(0)); calls]?,
        routes: vec![in heap; 0; calls.saturating_mul(128)]?,
    })
}
