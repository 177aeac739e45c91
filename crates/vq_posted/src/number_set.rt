//! A set of small numbers.

ghost use Rattle.std.specs.Prelude.{◌≡◌, ℕ, [], ◌+◌, ◌*◌, ◌/◌, ◌<◌, ◌≤◌, ◌==◌, ◌||◌, ◌&&◌, not, false, length, nat_lt, take, All, IfOk, MatchOption};
ghost use Rattle.vt_types.specs.Limits.{MOST_PIECES};
ghost use Rattle.vq_posted.specs.Free.{is_in};
ghost use Rattle.vq_posted.specs.Members.{is_member, members, IsNext};

use arrayvec::ArrayVec;
use std::alloc::Global;
use std::marker::Model;
use vt_types::{MOST_PIECES, Memory};

/// A set of numbers below a bound that is a multiple of 64, and at most 65,536.
///
/// Contracts see its words: bit n % 64 of word n / 64 says whether n is a member.
#[derive(Drop)]
pub(crate) struct NumberSet {
    words: Vec<u64>,
}

impl Model for NumberSet {
    ghost use Rattle.std.specs.Prelude.{ℕ, List, ◌≤◌, length};

    ghost Value = { List ℕ };

    ghost view = { λ s. s.words.items };

    ghost invariant = { λ s. length s.words.items ≤ 1024 };
}

impl NumberSet {
    /// An empty set that has room for the numbers up to `greatest`.
    pub fn new(alloc: Global, greatest: u16) -> Result<NumberSet, Memory>
        ensures empty { IfOk result (λ s. (n : ℕ) → is_member s n ≡ false) }
        ensures room { IfOk result (λ s. length s ≡ greatest / 64 + 1) }
    {
        let words = vec![in alloc; 0; usize::from(greatest) / 64 + 1]?;
        Ok(NumberSet { words })
    }

    /// No number is a member.
    pub fn clear(&mut self)
        ensures empty { (n : ℕ) → is_member self.new n ≡ false }
        ensures room { length self.new ≡ length self.old }
    {
        self.words.fill(0);
    }

    /// The numbers below `count` are the members.
    pub fn fill(&mut self, count: u16)
        requires { count ≤ 64 * length self.old }
        ensures members { (n : ℕ) → is_member self.new n ≡ nat_lt n count }
        ensures room { length self.new ≡ length self.old }
    {
        self.clear();
        'numbers: for number in 0..count {
            self.insert(number);
        }
    }

    /// Whether a number is a member.
    pub fn contains(&self, number: u16) -> bool
        requires { number < 64 * length self.now }
        ensures { result ≡ is_member self.now number }
    {
        let word = self.words[usize::from(number / 64)];
        (word >> (number % 64)) & 1 == 1
    }

    /// A number becomes a member.
    pub fn insert(&mut self, number: u16)
        requires { number < 64 * length self.old }
        ensures members { (n : ℕ) → is_member self.new n ≡ (number == n || is_member self.old n) }
        ensures room { length self.new ≡ length self.old }
    {
        self.words[usize::from(number / 64)] |= 1 << (number % 64);
    }

    /// A number is no longer a member.
    pub fn remove(&mut self, number: u16)
        requires { number < 64 * length self.old }
        ensures members { (n : ℕ) → is_member self.new n ≡ (not (number == n) && is_member self.old n) }
        ensures room { length self.new ≡ length self.old }
    {
        self.words[usize::from(number / 64)] &= !(1 << (number % 64));
    }

    /// Numbers become members.
    pub fn insert_all(&mut self, numbers: &[u16])
        requires { All (λ n. n < 64 * length self.old) numbers.now }
        ensures members { (n : ℕ) → is_member self.new n ≡ (is_in n numbers.now || is_member self.old n) }
        ensures room { length self.new ≡ length self.old }
    {
        'numbers: for number in numbers {
            self.insert(*number);
        }
    }

    /// Numbers are no longer members.
    pub fn remove_all(&mut self, numbers: &[u16])
        requires { All (λ n. n < 64 * length self.old) numbers.now }
        ensures members { (n : ℕ) → is_member self.new n ≡ (not (is_in n numbers.now) && is_member self.old n) }
        ensures room { length self.new ≡ length self.old }
    {
        'numbers: for number in numbers {
            self.remove(*number);
        }
    }

    /// The lowest member in the words from `index` on.
    fn first_from_word(&self, index: usize) -> Option<usize>
        requires { index ≤ length self.now }
        ensures { MatchOption result ((k : ℕ) → 64 * index ≤ k → is_member self.now k ≡ false) (IsNext self.now (64 * index)) }
    {
        'words: for i in index..self.words.len() {
            let word = self.words[i];
            if word != 0 {
                return Some(64 * i + word.trailing_zeros() as usize);
            }
        }
        None
    }

    /// The lowest member that is not below `from`.
    fn next_from(&self, from: usize) -> Option<usize>
        ensures next { MatchOption result ((k : ℕ) → from ≤ k → is_member self.now k ≡ false) (IsNext self.now from) }
        ensures bound { length self.now ≤ 1024 }
    {
        let index = from / 64;
        if index >= self.words.len() {
            return None;
        }
        let word = self.words[index] & (u64::MAX << (from % 64));
        if word != 0 {
            return Some(64 * index + word.trailing_zeros() as usize);
        }
        self.first_from_word(index + 1)
    }

    /// Adds the lowest members to a list that has none, rising: `count` of them, or all where there are fewer.
    pub fn add_lowest(&self, count: usize, numbers: &mut ArrayVec<u16, MOST_PIECES>)
        requires few { count ≤ MOST_PIECES }
        requires none { numbers.old.items ≡ [] }
        ensures { numbers.new.items ≡ take count (members self.now) }
    {
        let mut from = 0;
        'numbers: for _left in 0..count {
            let Some(number) = self.next_from(from) else {
                return;
            };
            numbers.push(number as u16);
            from = number + 1;
        }
    }
}
