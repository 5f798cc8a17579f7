//! The files that tables of referenced versions name and how often each is named, and which numbers are known, which
//! of them are dead, and which were taken.
ghost use Rattle.std.specs.Prelude.{List, Option, ◌≡◌, ◌+◌, ◌≤◌, ◌<◌, ◌==◌, ◌&&◌, ◌||◌, ◌^◌, not, ℕ, [], Some, None, length, map, vec_len, MatchOption, OnOk, OnErr, IsSome, IsTrue, nat_lt, option_copied, false, if◌then◌else◌};
ghost use Rattle.std.specs.Vec.{vec_capacity};
ghost use Rattle.std.specs.VecDeque.{deque_len, deque_capacity};
ghost use Rattle.std.specs.List.{remove};
ghost use Rattle.xdb_lists.specs.Keyed.{IsRising};
ghost use Rattle.xdb_lists.specs.Numbers.{is_among, EndsRising};
ghost use Rattle.xdb_vset.specs.Counts.{named_in, named_by, table_count};
ghost use Rattle.xdb_vset.specs.Backings.{count_in, file_in, file_from, FilesAre};
ghost use Rattle.xdb_vset.specs.FileLists.{FileLists, file_lists, AreFiles};
ghost use Rattle.xdb_vset.specs.Seen.{is_taken};

use crate::numbers;
use std::alloc::{AllocError, Global};
use std::collections::VecDeque;
use std::marker::Model;
use xdb_levels::Version;
use xdb_meta::TableMeta;

/// A file that is named, and by how many pairs of a referenced version and a table in it.
#[derive(Debug, Drop)]
pub struct Backing<F> {
    pub num: u64,
    pub count: u64,
    pub file: F,
}

/// Lists of files and of numbers, each in rising order. Each number that is named or dead has room in the lists that
/// it may come to.
#[derive(Debug, Drop)]
pub struct Files<F> {
    named: Vec<Backing<F>>,
    known: VecDeque<u64>,
    /// Known, not named, and not taken.
    dead: VecDeque<u64>,
    taken: VecDeque<u64>,
    /// For how many more numbers room was promised.
    spare: usize,
    /// How often a count was raised so far, which no count passes.
    raised: u64,
}

impl<F> Model for Files<F> {
    ghost use Rattle.std.specs.Prelude.{vec_len};
    ghost use Rattle.std.specs.Vec.{vec_capacity};
    ghost use Rattle.std.specs.VecDeque.{deque_len, deque_capacity};
    ghost use Rattle.xdb_vset.specs.FileLists.{FileLists, file_lists, AreFiles, AreLow, HasRoom};

    ghost Value = { FileLists F };

    ghost view = { λ s. file_lists s.named.items s.known.items s.dead.items s.taken.items s.spare s.raised };

    ghost invariant = { λ s. AreFiles s.named.items s.known.items s.dead.items s.taken.items
        × HasRoom (vec_len s.named) (vec_capacity s.named) (deque_len s.known) (deque_capacity s.known) (deque_len s.dead) (deque_capacity s.dead) (deque_len s.taken) (deque_capacity s.taken) s.spare
        × AreLow s.named.items s.raised };
}

/// The place of the file of this number; or else the place where it belongs.
fn find<F>(named: &[Backing<F>], num: u64) -> Result<usize, usize>
    requires { IsRising (λ b. b.num) named.now }
    ensures { EndsRising (λ b. b.num) named.now num result }
{
    named.binary_search_by(|other| other.num.cmp(&num))
}

/// Names the file `file`, where it isn't named, or in place of the file of that number. Takes no memory.
fn bring<F: Drop>(named: &mut Vec<Backing<F>>, num: u64, file: F)
    requires rising { IsRising (λ b. b.num) named.old.items }
    requires room { vec_len named.old < vec_capacity named.old }
    ensures rising { IsRising (λ b. b.num) named.new.items }
    ensures count { (b : ℕ) → count_in b named.new.items ≡ count_in b named.old.items }
    ensures file { (b : ℕ) → file_in b named.new.items ≡ (if b == num then Some file else file_in b named.old.items) }
    ensures len { vec_len named.new ≤ vec_len named.old + 1 }
    ensures capacity { vec_capacity named.old ≤ vec_capacity named.new }
{
    match find(named, num) {
        Ok(at) => {
            let backing = &mut named[at];
            backing.file = file;
        }
        Err(at) => {
            let backing = Backing {
                num,
                count: 0,
                file,
            };
            let Ok(()) = named.insert(at, backing) else {
                unreachable!()
            };
        }
    }
}

/// How many levels a version has.
fn level_count(version: &Version) -> usize
    ensures count { result ≡ length version.now }
    ensures seven { result ≡ 7 }
{
    // With a level comes how many every version has.
    let _l0 = version.tables(0);
    7
}

/// How many tables the version has, where the number can be told.
fn table_count(version: &Version) -> Option<u64>
    ensures { result ≡ (if nat_lt (table_count version.now) (2 ^ 64) then Some (table_count version.now) else None) }
{
    let mut total: u64 = 0;
    for level in 0..level_count(version) {
        total = total.checked_add(version.tables(level).len() as u64)?;
    }
    Some(total)
}

impl<F> Files<F> {
    pub fn new(alloc: Global) -> Self
        ensures { result ≡ file_lists [] [] [] [] 0 0 }
    {
        Files {
            named: Vec::new(alloc),
            known: VecDeque::new(alloc),
            dead: VecDeque::new(alloc),
            taken: VecDeque::new(alloc),
            spare: 0,
            raised: 0,
        }
    }

    /// The files that are named.
    pub fn named(&self) -> &[Backing<F>]
        ensures { result.now ≡ self.now.named }
    {
        &self.named
    }

    /// The file of the number.
    pub fn file(&self, num: u64) -> Option<&F>
        ensures { option_copied result ≡ file_in num self.now.named }
    {
        match find(&self.named, num) {
            Ok(at) => Some(&self.named[at].file),
            Err(_) => None,
        }
    }

    /// How many numbers are dead.
    pub fn dead_len(&self) -> usize
        ensures { result ≡ length self.now.dead }
    {
        self.dead.len()
    }

    /// How many more numbers room was promised for.
    pub fn spare(&self) -> usize
        ensures { result ≡ self.now.spare }
    {
        self.spare
    }

    /// Promises room for as many more numbers beside those that it was promised for.
    pub fn grow(&mut self, more: usize) -> Result<(), AllocError>
        ensures spare { OnOk result (self.new.spare ≡ self.old.spare + more) }
        ensures rest { self.new ≡ record self.old { spare = self.new.spare } }
        ensures err { OnErr result (self.new ≡ self.old) }
    {
        let Some(spare) = self.spare.checked_add(more) else {
            return Err(AllocError);
        };
        let Some(dying) = spare.checked_add(self.named.len()) else {
            return Err(AllocError);
        };
        let Some(dead) = dying.checked_add(self.dead.len()) else {
            return Err(AllocError);
        };
        self.named.try_reserve(spare)?;
        self.known.reserve(spare)?;
        self.dead.reserve(dying)?;
        self.taken.reserve(dead)?;
        self.spare = spare;
        Ok(())
    }

    /// The number is known from now on. Takes no memory.
    fn know(&mut self, num: u64)
        requires { 1 ≤ self.old.spare }
        ensures known { (n : ℕ) → is_among n self.new.known ≡ (n == num || is_among n self.old.known) }
        ensures spare { self.new.spare + 1 ≡ self.old.spare }
        ensures rest { self.new ≡ record self.old { known = self.new.known; dead = self.new.dead; spare = self.new.spare } }
    {
        self.spare -= 1;
        numbers::put(&mut self.known, num);
        let unnamed = find(&self.named, num).is_err();
        if unnamed && !numbers::has(&self.taken, num) {
            numbers::put(&mut self.dead, num);
        }
    }

    /// The numbers are known from now on, and each that has no file and wasn't taken is dead. Takes no memory.
    pub fn know_all(&mut self, nums: &[u64])
        requires { length nums.now ≤ self.old.spare }
        ensures known { (n : ℕ) → is_among n self.new.known ≡ (is_among n nums.now || is_among n self.old.known) }
        ensures spare { self.new.spare + length nums.now ≡ self.old.spare }
        ensures rest { self.new ≡ record self.old { known = self.new.known; dead = self.new.dead; spare = self.new.spare } }
        ensures files { AreFiles self.new.named self.new.known self.new.dead self.new.taken }
    {
        for num in nums {
            self.know(*num);
        }
        self.stand();
    }

    /// The least dead number, which is taken from now on. Takes no memory.
    pub fn take_least(&mut self) -> Option<u64>
        ensures least { MatchOption result ((n : ℕ) → is_among n self.old.dead ≡ false) (λ d. IsTrue (is_among d self.old.dead) × ((n : ℕ) → IsTrue (is_among n self.old.dead) → d ≤ n)) }
        ensures taken { (n : ℕ) → is_among n self.new.taken ≡ (is_taken n result || is_among n self.old.taken) }
        ensures rest { self.new ≡ record self.old { dead = self.new.dead; taken = self.new.taken } }
        ensures files { AreFiles self.new.named self.new.known self.new.dead self.new.taken }
    {
        let num = self.dead.pop_front()?;
        numbers::put(&mut self.taken, num);
        Some(num)
    }

    /// What holds of all such lists: for proofs, it does nothing.
    pub fn stand(&self)
        ensures { AreFiles self.now.named self.now.known self.now.dead self.now.taken }
    {
        // With a field comes what all such lists keep.
        let _spare = self.spare;
    }

    /// How many files and numbers the lists have room for.
    #[cfg(test)]
    pub fn capacity(&self) -> usize {
        let numbers = self.known.capacity().saturating_add(self.taken.capacity());
        let files = self.named.capacity().saturating_add(self.dead.capacity());
        numbers.saturating_add(files)
    }

    /// The file is named by one pair more.
    fn raise(&mut self, num: u64)
        requires named { IsSome (file_in num self.old.named) }
        requires small { self.old.raised + 1 < 2 ^ 64 }
        ensures count { (b : ℕ) → count_in b self.new.named ≡ count_in b self.old.named + (if b == num then 1 else 0) }
        ensures file { (b : ℕ) → file_in b self.new.named ≡ file_in b self.old.named }
        ensures raised { self.new.raised ≡ self.old.raised + 1 }
        ensures rest { self.new ≡ record self.old { named = self.new.named; raised = self.new.raised } }
    {
        self.raised += 1;
        if let Ok(at) = find(&self.named, num) {
            let backing = &mut self.named[at];
            backing.count += 1;
        }
    }

    /// The file of each table is named by one pair more.
    fn raise_all(&mut self, tables: &[TableMeta])
        requires named { (b : ℕ) → 0 < named_in b tables.now → IsSome (file_in b self.old.named) }
        requires small { self.old.raised + length tables.now < 2 ^ 64 }
        ensures count { (b : ℕ) → count_in b self.new.named ≡ count_in b self.old.named + named_in b tables.now }
        ensures file { (b : ℕ) → file_in b self.new.named ≡ file_in b self.old.named }
        ensures raised { self.new.raised ≡ self.old.raised + length tables.now }
        ensures rest { self.new ≡ record self.old { named = self.new.named; raised = self.new.raised } }
    {
        for table in tables {
            self.raise(table.backing());
        }
    }

    /// The file of each table of the version is named by one pair more.
    fn raise_version(&mut self, version: &Version)
        requires named { (b : ℕ) → 0 < named_by b version.now → IsSome (file_in b self.old.named) }
        requires small { self.old.raised + table_count version.now < 2 ^ 64 }
        ensures count { (b : ℕ) → count_in b self.new.named ≡ count_in b self.old.named + named_by b version.now }
        ensures file { (b : ℕ) → file_in b self.new.named ≡ file_in b self.old.named }
        ensures rest { self.new ≡ record self.old { named = self.new.named; raised = self.new.raised } }
    {
        let count = level_count(version);
        for level in 0..count {
            self.raise_all(version.tables(level));
        }
    }

    /// Whether no count passes the greatest number where the version is named once more.
    pub fn can_raise(&self, version: &Version) -> bool
        ensures { result ≡ nat_lt (self.now.raised + table_count version.now) (2 ^ 64) }
    {
        match table_count(version) {
            Some(total) => self.raised.checked_add(total).is_some(),
            None => false,
        }
    }
}

impl<F: Drop> Files<F> {
    /// The number is known from now on and has the file, in place of the one before. Takes no memory.
    fn add(&mut self, num: u64, file: F)
        requires { 1 ≤ self.old.spare }
        ensures known { (n : ℕ) → is_among n self.new.known ≡ (n == num || is_among n self.old.known) }
        ensures count { (b : ℕ) → count_in b self.new.named ≡ count_in b self.old.named }
        ensures file { (b : ℕ) → file_in b self.new.named ≡ (if b == num then Some file else file_in b self.old.named) }
        ensures spare { self.new.spare + 1 ≡ self.old.spare }
        ensures rest { self.new ≡ record self.old { named = self.new.named; known = self.new.known; dead = self.new.dead; spare = self.new.spare } }
    {
        self.spare -= 1;
        numbers::put(&mut self.known, num);
        numbers::take_out(&mut self.dead, num);
        bring(&mut self.named, num, file);
    }

    /// The numbers are known from now on, and each has its file. Takes no memory.
    fn add_all(&mut self, files: Vec<(u64, F)>)
        requires { length files.items ≤ self.old.spare }
        ensures known { (n : ℕ) → is_among n self.new.known ≡ (is_among n (map (λ f. f.0) files.items) || is_among n self.old.known) }
        ensures count { (b : ℕ) → count_in b self.new.named ≡ count_in b self.old.named }
        ensures file { (b : ℕ) → file_in b self.new.named ≡ file_from files.items b (file_in b self.old.named) }
        ensures spare { self.new.spare + length files.items ≡ self.old.spare }
        ensures rest { self.new ≡ record self.old { named = self.new.named; known = self.new.known; dead = self.new.dead; spare = self.new.spare } }
    {
        for (num, file) in files {
            self.add(num, file);
        }
    }

    /// Takes out the file at the place, and its number is dead, unless it was taken.
    fn let_go(&mut self, at: usize)
        requires { at < length self.old.named }
        ensures named { self.new.named ≡ remove self.old.named at }
        ensures rest { self.new ≡ record self.old { named = self.new.named; dead = self.new.dead } }
    {
        let Backing {
            num,
            count: _,
            file: _,
        } = self.named.remove(at);
        if !numbers::has(&self.taken, num) {
            numbers::put(&mut self.dead, num);
        }
    }

    /// The file is named by one pair less. Where none is left it goes, and its number is dead, unless it was
    /// taken. Takes no memory.
    fn lower(&mut self, num: u64)
        requires { 0 < count_in num self.old.named }
        ensures count { (b : ℕ) → count_in b self.new.named + (if b == num then 1 else 0) ≡ count_in b self.old.named }
        ensures kept { (files : ℕ → Option F) → FilesAre files self.old.named → FilesAre files self.new.named }
        ensures rest { self.new ≡ record self.old { named = self.new.named; dead = self.new.dead } }
    {
        if let Ok(at) = find(&self.named, num) {
            let left = self.named[at].count - 1;
            if left > 0 {
                let backing = &mut self.named[at];
                backing.count = left;
            } else {
                self.let_go(at);
            }
        }
    }

    /// The file of each table is named by one pair less.
    fn lower_all(&mut self, tables: &[TableMeta])
        requires { (b : ℕ) → named_in b tables.now ≤ count_in b self.old.named }
        ensures count { (b : ℕ) → count_in b self.new.named + named_in b tables.now ≡ count_in b self.old.named }
        ensures kept { (files : ℕ → Option F) → FilesAre files self.old.named → FilesAre files self.new.named }
        ensures rest { self.new ≡ record self.old { named = self.new.named; dead = self.new.dead } }
    {
        for table in tables {
            self.lower(table.backing());
        }
    }

    /// The file of each table of the version is named by one pair less. A file that no pair names any more goes, and
    /// its number is dead, unless it was taken. Takes no memory.
    pub fn lower_version(&mut self, version: &Version)
        requires { (b : ℕ) → named_by b version.now ≤ count_in b self.old.named }
        ensures count { (b : ℕ) → count_in b self.new.named + named_by b version.now ≡ count_in b self.old.named }
        ensures kept { (files : ℕ → Option F) → FilesAre files self.old.named → FilesAre files self.new.named }
        ensures rest { self.new ≡ record self.old { named = self.new.named; dead = self.new.dead } }
        ensures files { AreFiles self.new.named self.new.known self.new.dead self.new.taken }
    {
        let count = level_count(version);
        for level in 0..count {
            self.lower_all(version.tables(level));
        }
        self.stand();
    }

    /// Lets the file go where nothing names it.
    fn settle(&mut self, num: u64)
        ensures count { (b : ℕ) → count_in b self.new.named ≡ count_in b self.old.named }
        ensures file { (b : ℕ) → file_in b self.new.named ≡ (if b == num && count_in b self.old.named == 0 then None else file_in b self.old.named) }
        ensures rest { self.new ≡ record self.old { named = self.new.named; dead = self.new.dead } }
    {
        if let Ok(at) = find(&self.named, num) {
            if self.named[at].count == 0 {
                self.let_go(at);
            }
        }
    }

    /// Lets each of these files go where nothing names it.
    fn settle_all(&mut self, nums: &[u64])
        ensures count { (b : ℕ) → count_in b self.new.named ≡ count_in b self.old.named }
        ensures file { (b : ℕ) → file_in b self.new.named ≡ (if is_among b nums.now && count_in b self.old.named == 0 then None else file_in b self.old.named) }
        ensures rest { self.new ≡ record self.old { named = self.new.named; dead = self.new.dead } }
    {
        for num in nums {
            self.settle(*num);
        }
    }

    /// Brings the files, counts the tables of the version, and lets those of the files go, whose numbers these are,
    /// that no table lies in. Takes no memory.
    pub fn add_version(&mut self, version: &Version, nums: &[u64], files: Vec<(u64, F)>)
        requires named { (b : ℕ) → 0 < named_by b version.now → IsSome (file_from files.items b (file_in b self.old.named)) }
        requires small { self.old.raised + table_count version.now < 2 ^ 64 }
        requires room { length files.items ≤ self.old.spare }
        ensures known { (n : ℕ) → is_among n self.new.known ≡ (is_among n (map (λ f. f.0) files.items) || is_among n self.old.known) }
        ensures count { (b : ℕ) → count_in b self.new.named ≡ count_in b self.old.named + named_by b version.now }
        ensures file { (b : ℕ) → file_in b self.new.named ≡ (if is_among b nums.now && count_in b self.new.named == 0 then None else file_from files.items b (file_in b self.old.named)) }
        ensures spare { self.new.spare + length files.items ≡ self.old.spare }
        ensures taken { self.new.taken ≡ self.old.taken }
        ensures files { AreFiles self.new.named self.new.known self.new.dead self.new.taken }
    {
        self.add_all(files);
        self.raise_version(version);
        self.settle_all(nums);
        self.stand();
    }
}
