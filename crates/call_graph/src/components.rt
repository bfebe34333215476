//! The components of a graph, by a search depth first (Tarjan's method).

use crate::ranks::rank_of;
use kes_text::NoMemory;
use sqlite_items::Items;
use std::alloc::Global;

/// A number that was entered and not left yet.
#[derive(Clone, Copy)]
struct Open {
    number: u32,
    /// When it was entered.
    since: u32,
    /// The place of the next of its edges.
    edge: usize,
}

/// A search depth first.
#[derive(Drop)]
struct Search<'a> {
    edges: &'a [Items<u32>],
    /// For each number the earliest time of entry of those to which it is known to lead back, or 0 before it is entered.
    low: Vec<u32>,
    /// The component of each number, from 1 on, or 0 as long as it isn't known. An edge leads to no later one.
    components: Vec<u32>,
    /// The numbers that were entered and have no component yet.
    waiting: Vec<u32>,
    open: Vec<Open>,
    /// The time of the last entry.
    now: u32,
    /// The last component.
    last: u32,
}

fn put(values: &mut [u32], number: u32, value: u32) {
    let place = number as usize;
    if place < values.len() {
        values[place] = value;
    }
}

fn lower(values: &mut [u32], number: u32, value: u32) {
    if value < rank_of(values, number as usize) {
        put(values, number, value);
    }
}

fn zeros(alloc: Global, count: usize) -> Result<Vec<u32>, NoMemory> {
    let mut values = Vec::new(alloc);
    for _place in 0..count {
        values.push(0)?;
    }
    Ok(values)
}

/// Where an edge leads.
fn next_of(edges: &[Items<u32>], number: u32, edge: usize) -> Option<u32> {
    let nexts = edges.get(number as usize)?;
    nexts.get(edge).copied()
}

/// How many numbers and edges there are.
fn size_of(edges: &[Items<u32>]) -> usize {
    let mut size = edges.len();
    for nexts in edges {
        size = size.saturating_add(nexts.len());
    }
    size
}

impl<'a> Search<'a> {
    fn new(alloc: Global, edges: &'a [Items<u32>]) -> Result<Search<'a>, NoMemory> {
        Ok(Search {
            edges,
            low: zeros(alloc, edges.len())?,
            components: zeros(alloc, edges.len())?,
            waiting: Vec::new(alloc),
            open: Vec::new(alloc),
            now: 0,
            last: 0,
        })
    }

    fn enter(&mut self, number: u32) -> Result<(), NoMemory> {
        self.now = self.now.saturating_add(1);
        let since = self.now;
        put(&mut self.low, number, since);
        self.waiting.push(number)?;
        let edge = 0;
        self.open.push(Open {
            number,
            since,
            edge,
        })?;
        Ok(())
    }

    /// Goes along an edge, unless it leads out of the graph.
    fn go(&mut self, from: u32, to: u32) -> Result<(), NoMemory> {
        match self.low.get(to as usize).copied() {
            Some(0) => self.enter(to)?,
            Some(low) if rank_of(&self.components, to as usize) == 0 => {
                lower(&mut self.low, from, low);
            }
            _ => {}
        }
        Ok(())
    }

    /// Those that wait, down to this one, are a component.
    fn close(&mut self, first: u32) {
        self.last = self.last.saturating_add(1);
        for _place in 0..self.waiting.len() {
            let Some(number) = self.waiting.pop() else {
                return;
            };
            put(&mut self.components, number, self.last);
            if number == first {
                return;
            }
        }
    }

    fn leave(&mut self, number: u32, since: u32) {
        let low = rank_of(&self.low, number as usize);
        if low == since {
            self.close(number);
        }
        if let Some(above) = self.open.last().copied() {
            lower(&mut self.low, above.number, low);
        }
    }

    /// One step of the search; whether there was one left.
    fn step(&mut self) -> Result<bool, NoMemory> {
        let Some(open) = self.open.pop() else {
            return Ok(false);
        };
        match next_of(self.edges, open.number, open.edge) {
            Some(to) => {
                let edge = open.edge.saturating_add(1);
                self.open.push(Open { edge, ..open })?;
                self.go(open.number, to)?;
            }
            None => self.leave(open.number, open.since),
        }
        Ok(true)
    }

    /// Searches from a number on, unless it was entered.
    fn run(&mut self, number: u32, steps: usize) -> Result<(), NoMemory> {
        if rank_of(&self.low, number as usize) == 0 {
            self.enter(number)?;
        }
        for _step in 0..steps {
            if !self.step()? {
                return Ok(());
            }
        }
        Ok(())
    }

    fn into_components(self) -> Vec<u32> {
        self.components
    }
}

/// The component of each number: two have the same where each leads to the other, and an edge leads to no later one.
///
/// No contract says so. Who wants to know looks whether they rise along an edge.
pub fn components(alloc: Global, edges: &[Items<u32>]) -> Result<Vec<u32>, NoMemory> {
    let steps = size_of(edges);
    let mut search = Search::new(alloc, edges)?;
    let mut number = 0;
    for _place in 0..edges.len() {
        search.run(number, steps)?;
        number = number.saturating_add(1);
    }
    Ok(search.into_components())
}
