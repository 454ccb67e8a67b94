// The program's work: the plant first, then the commands in turn.
use crate::areas::{MOST, plant_room, reply_room, search_room};
use crate::input::MOST_BYTES;
use crate::show::{Refused, Told};
use cost::length::Length;
use format::command::{line_feed_after, read_command};
use format::fault::ReadFault;
use format::lists::ListsMut;
use format::plant_file::{PlantFile, read_plant};
use plant::refusal::Refusal;
use plants::lane_plant::LanePlant;
use plants::lists::{Lists, ListsOf};
use search::call::Call;
use search::reply::Reply;
use search::serve::serve as serve_calls;
use std::alloc::{AllocError, Global};

// Prints the answer to each command of the text, or why its plant is refused.
pub fn serve(rt: &HostRuntime, text: &[u8]) -> anyhow::Result<()> {
    if text.len() > MOST_BYTES {
        return refuse(rt, Refused::from(ReadFault::Short));
    }
    let mut room = plant_room(rt.alloc())?;
    match fill(text, &mut room) {
        Ok(file) => serve_plant(rt, text, file, &room),
        Err(fault) => refuse(rt, Refused::from(fault)),
    }
}

// Prints why there is no more to answer.
fn refuse(rt: &HostRuntime, refused: Refused) -> anyhow::Result<()> {
    rt.println(refused)?;
    Ok(())
}

// Reads the plant into the program's lists.
fn fill(text: &[u8], room: &mut ListsOf<Vec<u32>>) -> Result<PlantFile, ReadFault> {
    let lists = ListsMut {
        tails: room.tails.as_mut_slice(),
        heads: room.heads.as_mut_slice(),
        costs: room.costs.as_mut_slice(),
        first_out: room.first_out.as_mut_slice(),
        first_in: room.first_in.as_mut_slice(),
        by_head: room.by_head.as_mut_slice(),
        to: room.to.as_mut_slice(),
        from: room.from.as_mut_slice(),
    };
    read_plant(text, MOST, lists)
}

// The first entries of a list, as many as it has at most.
fn front(list: &[u32], n: usize) -> &[u32] {
    &list[0..n.min(list.len())]
}

// Makes the plant that was read, and answers the commands behind it.
fn serve_plant(
    rt: &HostRuntime,
    text: &[u8],
    file: PlantFile,
    room: &ListsOf<Vec<u32>>,
) -> anyhow::Result<()> {
    let lanes = file.counts.lanes as usize;
    let ends = (file.counts.nodes as usize).saturating_add(1);
    let table = (file.counts.nodes as usize).saturating_mul(file.counts.landmarks as usize);
    let lists = Lists {
        tails: front(&room.tails, lanes),
        heads: front(&room.heads, lanes),
        costs: front(&room.costs, lanes),
        first_out: front(&room.first_out, ends),
        first_in: front(&room.first_in, ends),
        by_head: front(&room.by_head, lanes),
        to: front(&room.to, table),
        from: front(&room.from, table),
    };
    match LanePlant::new(file.counts.nodes, file.counts.landmarks, lists) {
        Ok(plant) => answer_all(rt, text, file, &plant),
        Err(fault) => refuse(rt, Refused::from(Refusal::from(fault))),
    }
}

// Reads each line behind the plant file: a call, or a fault.
fn read_lines(
    heap: Global,
    text: &[u8],
    file: PlantFile,
) -> Result<Vec<Result<Call, ReadFault>>, AllocError> {
    let mut lines = Vec::new(heap);
    let mut at = file.end;
    let mut line = file.lines.saturating_add(1);
    // by lines: each begins where the one before ended
    while at < text.len() {
        lines.push(read_command(text, at, line).map(|read| read.command))?;
        at = line_feed_after(text, at);
        line = line.saturating_add(1);
    }
    Ok(lines)
}

// The calls among the lines.
fn calls_of(heap: Global, lines: &[Result<Call, ReadFault>]) -> Result<Vec<Call>, AllocError> {
    lines.iter().filter_map(|line| line.ok()).collect(heap)
}

// Makes all calls on a fresh shift over the plant, and prints the replies and the faults in the order of the lines.
fn answer_all(
    rt: &HostRuntime,
    text: &[u8],
    file: PlantFile,
    plant: &LanePlant,
) -> anyhow::Result<()> {
    let lines = read_lines(rt.alloc(), text, file)?;
    let calls = calls_of(rt.alloc(), lines.as_slice())?;
    let mut areas = search_room(rt.alloc())?;
    let mut told = reply_room(rt.alloc(), calls.len())?;
    let served = serve_calls(
        plant,
        calls.as_slice(),
        areas.rows.as_mut_slice(),
        areas.back_rows.as_mut_slice(),
        areas.queue.as_mut_slice(),
        areas.back_queue.as_mut_slice(),
        told.replies.as_mut_slice(),
        told.routes.as_mut_slice(),
    );
    match served {
        Ok(()) => print_all(
            rt,
            lines.as_slice(),
            told.replies.as_slice(),
            told.routes.as_slice(),
        ),
        Err(fault) => refuse(rt, Refused::from(Refusal::from(fault))),
    }
}

// Prints a line for each line read: the next reply, or its fault.
fn print_all(
    rt: &HostRuntime,
    lines: &[Result<Call, ReadFault>],
    replies: &[Reply<Length>],
    routes: &[u32],
) -> anyhow::Result<()> {
    let mut replies = replies.iter();
    for line in lines {
        match *line {
            Ok(_) => {
                if let Some(reply) = replies.next() {
                    rt.println(Told {
                        reply: *reply,
                        routes,
                    })?;
                }
            }
            Err(fault) => rt.println(Refused::from(fault))?,
        }
    }
    Ok(())
}
