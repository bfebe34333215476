//! Where the ways of a graph lead, for all of its numbers at once (Warshall's method).

ghost use Rattle.std.specs.Prelude.{◌≡◌, ◌==◌, ◌&&◌, ◌||◌, ◌<◌, ◌^◌, ◌+◌, ◌/◌, ℕ, All, length, IfOk};
ghost use Rattle.std.specs.List.{list_any};
ghost use Rattle.jworld.specs.Row.{has_bit, reaches, AreRows};
ghost use Rattle.jworld.specs.Edges.{graph_of, AreWithin, IsClosure};

use crate::row::Row;
use kes_text::NoMemory;
use sqlite_items::Items;
use std::alloc::Global;
use std::marker::Model;

/// For each number of a graph those to which a way leads, as one row of bits.
#[derive(Drop)]
pub struct Closure {
    rows: Vec<Row>,
}

impl Model for Closure {
    ghost use Rattle.std.specs.Prelude.{ℕ, List};

    ghost Value = { List (List ℕ) };

    ghost view = { λ closure. closure.rows.items };
}

/// A row that has these numbers.
fn row_of(alloc: Global, words: usize, numbers: &[u32]) -> Result<Row, NoMemory>
    requires { All (λ number. number / 64 < words) numbers.now }
    ensures room { IfOk result (λ row. length row ≡ words) }
    ensures bits { IfOk result (λ row. (j : ℕ) → has_bit row j ≡ list_any (λ number. j == number) numbers.now) }
{
    let mut row = Row::new(alloc, words)?;
    for number in numbers {
        row.insert(*number);
    }
    Ok(row)
}

/// A row for each number, of those to which an edge leads.
fn rows_of(alloc: Global, edges: &[Items<u32>]) -> Result<Vec<Row>, NoMemory>
    requires { AreWithin edges.now }
    ensures room { IfOk result (λ rows. AreRows (length edges.now / 64 + 1) rows.items) }
    ensures count { IfOk result (λ rows. length rows.items ≡ length edges.now) }
    ensures bits { IfOk result (λ rows. (i j : ℕ) → reaches rows.items i j ≡ list_any (λ number. j == number) (graph_of edges.now i)) }
{
    let words = edges.len() / 64 + 1;
    let mut rows = Vec::new(alloc);
    for numbers in edges {
        rows.push(row_of(alloc, words, numbers.as_slice())?)?;
    }
    Ok(rows)
}

/// Where a row leads to a number, it leads to all to which that one does.
fn lead_through(row: &mut Row, number: u32, through: &Row)
    requires { length through.now ≡ length row.old }
    ensures room { length row.new ≡ length row.old }
    ensures bits { (j : ℕ) → has_bit row.new j ≡ (has_bit row.old j || (has_bit row.old number && has_bit through.now j)) }
{
    if row.has(number) {
        row.join(through);
    }
}

/// The same for each row.
fn all_lead_through(rows: &mut [Row], number: u32, through: &Row)
    requires { AreRows (length through.now) rows.old }
    ensures room { AreRows (length through.now) rows.new }
    ensures bits { (i j : ℕ) → reaches rows.new i j ≡ (reaches rows.old i j || (reaches rows.old i number && has_bit through.now j)) }
{
    for row in rows.iter_mut() {
        lead_through(row, number, through);
    }
}

impl Closure {
    /// Of the graph in which these lists say where edges lead.
    pub fn of(alloc: Global, edges: &[Items<u32>]) -> Result<Closure, NoMemory>
        requires few { length edges.now < 2 ^ 32 }
        requires within { AreWithin edges.now }
        ensures { IfOk result (λ closure. IsClosure (graph_of edges.now) (reaches closure)) }
    {
        let mut rows = rows_of(alloc, edges)?;
        for number in 0..rows.len() {
            let through = rows[number].copy(alloc)?;
            all_lead_through(&mut rows, number as u32, &through);
        }
        Ok(Closure { rows })
    }

    /// Whether a way leads from one number to another.
    pub fn has(&self, from: u32, to: u32) -> bool
        ensures { result ≡ reaches self.now from to }
    {
        self.rows.get(from as usize).is_some_and(|row| row.has(to))
    }
}
