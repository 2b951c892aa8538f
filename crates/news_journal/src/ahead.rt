//! Reading a file ahead, in large pieces.
ghost use Rattle.std.specs.Prelude.{◌≡◌, ◌≢◌, ◌⊎◌, ◌<◌, ◌≤◌, ◌+◌, ◌^◌, List, ℕ, length, take, drop, vec_len, Option, IsTrue, OnOk, IfOk, IfErr};
ghost use Rattle.news_io.specs.Faults.{Counts};
ghost use Rattle.news_journal.specs.Opened.{Still, FaultCounts};
ghost use Rattle.news_journal.specs.declared.log.OpenFault.TheVariants.{Damaged};
ghost use Rattle.news_journal.specs.Window.{Shows, Covers};

use crate::OpenFault;
use crate::window::Window;
use news_io::{Disk, Failed};
use std::alloc::{AllocError, Global};

/// The fewest bytes that a read asks for.
const PIECE: usize = 1 << 20;

/// Reads until less than a piece is free, or the file ends; the answer is how many bytes.
/// Each read asks for at least a piece.
pub(crate) fn fill<D: Disk>(
    disk: &mut D,
    at: u64,
    into: &mut [u8],
    piece: usize,
) -> Result<usize, Failed>
    requires place { at + length into.old < 2 ^ 64 }
    requires piece { (0 < piece) × (piece ≤ 2 ^ 20) }
    ensures within { IfOk result (λ n. n ≤ length into.old) }
    ensures enough { D.disk.tells disk.old → IfOk result (λ n. (length into.old < n + piece) ⊎ (length (drop at (D.disk.seen disk.old)) ≤ n)) }
    ensures few { D.disk.tells disk.old → IfOk result (λ n. n ≤ length (drop at (D.disk.seen disk.old))) }
    ensures bytes { D.disk.tells disk.old → IfOk result (λ n. take n into.new ≡ take n (drop at (D.disk.seen disk.old))) }
    ensures still { Still D.disk disk.old disk.new }
    ensures count { Counts (D.disk.faults disk.old) (D.disk.faults disk.new) result }
{
    let mut done = 0;
    while done + piece <= into.len() {
        let count = disk.read(at + done as u64, &mut into[done..])?;
        if count == 0 {
            break;
        }
        done += count;
    }
    Ok(done)
}

impl Window {
    /// Nothing of a file.
    pub fn new(alloc: Global) -> Window
        ensures { (file : List ℕ) → Shows result file }
    {
        Window {
            bytes: Vec::new(alloc),
            from: 0,
            count: 0,
            ended: false,
        }
    }

    /// Makes room for so many bytes.
    fn grow(&mut self, size: usize) -> Result<(), AllocError>
        requires { size ≤ 2 ^ 23 }
        ensures { OnOk result (size ≤ vec_len self.new.bytes) }
    {
        if self.bytes.len() < size {
            self.bytes.resize(size, 0)?;
        }
        Ok(())
    }

    /// Whether the bytes from a place on are there, so many or up to the file's end.
    fn has(&self, at: u64, count: usize) -> bool
        requires place { at < 2 ^ 31 }
        requires count { count ≤ 2 ^ 22 + 1 }
        ensures behind { IsTrue result → self.now.from ≤ at }
        ensures covers { IsTrue result → (file : List ℕ) → Shows self.now file → Covers self.now file at count }
    {
        if at < self.from {
            return false;
        }
        if self.ended {
            return true;
        }
        at + count as u64 <= self.from + self.count as u64
    }

    /// Reads on, where the bytes from a place on are not all there.
    pub fn cover<D: Disk>(&mut self, disk: &mut D, at: u64, count: usize) -> Result<(), OpenFault>
        requires place { at < 2 ^ 31 }
        requires count { count ≤ 2 ^ 22 + 1 }
        ensures shows { D.disk.tells disk.old → Shows self.old (D.disk.seen disk.old) → OnOk result (Shows self.new (D.disk.seen disk.old)) }
        ensures behind { OnOk result (self.new.from ≤ at) }
        ensures covers { D.disk.tells disk.old → Shows self.old (D.disk.seen disk.old) → OnOk result (Covers self.new (D.disk.seen disk.old) at count) }
        ensures damage { IfErr result (λ e. (at : ℕ) (found : Option ℕ) → e ≢ Damaged at found) }
        ensures still { Still D.disk disk.old disk.new }
        ensures fault { IfErr result (FaultCounts (D.disk.faults disk.old) (D.disk.faults disk.new)) }
        ensures calm { OnOk result (D.disk.faults disk.new ≡ D.disk.faults disk.old) }
    {
        if self.has(at, count) {
            return Ok(());
        }
        self.grow(count + PIECE)?;
        self.count = 0;
        self.ended = false;
        self.from = at;
        self.count = fill(disk, at, &mut self.bytes, PIECE)?;
        self.ended = self.count + PIECE <= self.bytes.len();
        Ok(())
    }

    /// The bytes from a place on that are there, and at most so many.
    pub fn part(&self, at: u64, count: usize) -> &[u8]
        requires { self.now.from ≤ at }
        ensures few { length result.now ≤ count }
        ensures bytes { (file : List ℕ) → Shows self.now file → Covers self.now file at count → result.now ≡ take count (drop at file) }
    {
        let bytes = &self.bytes[..self.count];
        let start = ((at - self.from) as usize).min(bytes.len());
        let bytes = &bytes[start..];
        &bytes[..count.min(bytes.len())]
    }
}
