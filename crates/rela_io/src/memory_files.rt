//! Files that stand in memory, some calls on which are made to fail.
ghost use Rattle.std.specs.Prelude.{◌≡◌, ◌⊎◌, ◌↔◌, ◌<◌, [], ◌++◌, length, take, drop, Some, None, Ok, IsErr, IsTrue, IsSomeAnd, IfSome, IfOk, OnOk, OnErr, MatchOption, is_some, ◌==◌, refl};
ghost use Rattle.rela_io.specs.Calls.{NextFails, no_calls};
ghost use Rattle.rela_io.specs.MemoryFiles.{held_in, entries_of, bytes_at, given_of, opened, not_opened, after_read, not_read};

use crate::calls::Calls;
use crate::errors::Fault;
use crate::outside::Files;
use std::marker::Model;

/// A file that stands in memory.
#[derive(Drop)]
pub struct MemoryFile {
    /// The name that it is opened by.
    pub name: String,
    /// What reads of it give, from its start to its end.
    pub bytes: Vec<u8>,
}

/// Files that stand in memory. Of two files of one name the first counts.
///
/// Each `open`, and each `read` into a slice that isn't empty, is a call. The calls are numbered
/// from 1, and those with the numbers that `new` was given fail. A counter that reaches 2^64 - 1
/// stays there.
#[derive(Drop)]
pub struct MemoryFiles {
    /// The files. Of two of one name the first counts.
    files: Vec<MemoryFile>,
    /// How many bytes a read gives at most; at least 1.
    piece: usize,
    /// Counts the calls, and knows which are to fail.
    calls: Calls,
    /// The index of the open file, and `None` where none is open.
    current: Option<usize>,
    /// How many bytes were read since the last `open` that succeeded.
    given: usize,
}

impl Model for MemoryFiles {
    ghost use Rattle.rela_io.specs.MemoryFiles.{FilesState};

    ghost Value = { FilesState };

    ghost use Rattle.rela_io.specs.MemoryFilesInside.{state_of, IsWhole};

    ghost view = { state_of };

    ghost invariant = { IsWhole };
}

impl MemoryFiles {
    /// These files, none of them open. The calls with the numbers in `failing` fail, and a read
    /// gives at most `piece` bytes. It takes no memory.
    pub fn new(files: Vec<MemoryFile>, failing: Vec<u64>, piece: usize) -> MemoryFiles
        requires { 0 < piece }
        ensures made { result ≡ record {
          files = entries_of files.items;
          piece = piece;
          calls = no_calls failing.items;
          left = None;
          given = 0;
        } }
        ensures steady { IsTrue (⟦<MemoryFiles as Files>⟧.steady result) ↔ (failing.items ≡ []) }
    {
        MemoryFiles {
            files,
            piece,
            calls: Calls::new(failing),
            current: None,
            given: 0,
        }
    }
}

impl Files for MemoryFiles {
    ghost holds = { λ s. Some (held_in s.files) };

    ghost is_open = { λ s. is_some s.left };

    ghost left = { λ s. s.left };

    ghost given = { λ s. s.given };

    ghost faults = { λ s. s.calls.faults };

    ghost steady = { λ s. length s.calls.failing == 0 };

    fn open(&mut self, name: &str) -> Result<(), Fault>
        ensures ok_opens { OnOk result (self.new ≡ opened self.old name.now) }
        ensures fault { OnErr result (self.new ≡ not_opened self.old) }
        ensures fails { IsErr result ↔ (NextFails self.old.calls
            ⊎ (held_in self.old.files name.now ≡ None)) }
    {
        let fails = self.calls.count();
        match find(&self.files, name) {
            Some(index) if !fails => {
                self.current = Some(index);
                self.given = 0;
                Ok(())
            }
            _ => {
                self.current = None;
                Err(self.calls.fault())
            }
        }
    }

    fn read(&mut self, into: &mut [u8]) -> Result<usize, Fault>
        ensures empty { length into.old ≡ 0 → (result ≡ Ok 0) × (self.new ≡ self.old) }
        ensures ok_reads { 0 < length into.old → IfOk result (λ n. IsSomeAnd self.old.left (λ left.
            (n ≡ given_of self.old.piece (length into.old) (length left))
            × (into.new ≡ take n left ++ drop n into.old)
            × (self.new ≡ after_read self.old left n))) }
        ensures ok_none_only_at_end { 0 < length into.old → IfOk result (λ n.
            IfSome self.old.left (λ left. (n ≡ 0) ↔ (left ≡ []))) }
        ensures fault { OnErr result ((self.new ≡ not_read self.old) × (into.new ≡ into.old)) }
        ensures fails { 0 < length into.old → IsErr result ↔
            (NextFails self.old.calls ⊎ (self.old.left ≡ None)) }
    {
        if into.is_empty() {
            return Ok(0);
        }
        let fails = self.calls.count();
        match self.current {
            Some(index) if !fails => {
                let left = &self.files[index].bytes[self.given..];
                let n = self.piece.min(into.len()).min(left.len());
                into[..n].copy_from_slice(&left[..n]);
                self.given += n;
                Ok(n)
            }
            _ => Err(self.calls.fault()),
        }
    }

    ghost left_of_open = { λ _ told. told };

    ghost steady_tells_files = { λ _ _. refl };

    ghost steady_tells_left = { λ _ _ is_open. is_open };
}

/// The index of the first file of this name, and `None` where there is none. Time: linear in the
/// files.
fn find(files: &[MemoryFile], name: &str) -> Option<usize>
    ensures { MatchOption result
        (held_in (entries_of files.now) name.now ≡ None)
        (λ i. (i < length files.now) × (held_in (entries_of files.now) name.now
        ≡ Some (bytes_at (entries_of files.now) i))) }
{
    for (index, file) in files.iter().enumerate() {
        if file.name.as_str() == name {
            return Some(index);
        }
    }
    None
}
