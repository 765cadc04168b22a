//! Copies of the fragments that a poll gives, all in one piece of memory.

ghost use Rattle.std.specs.Prelude.{◌≡◌, ◌+◌, ◌++◌, ◌∷◌, [], ◌≤◌, IfOk, OnOk, OnErr, drop, length};
ghost use Rattle.byteorder.specs.Endian.{little_bytes, little_number};
ghost use Rattle.log_pairs.specs.Copies.{Fits, behind_one, read_one, written_one};
ghost use Rattle.log_pairs.specs.Polling.{fetched_of};

use crate::fragment::Fragment;
use byteorder::{ByteOrder, LittleEndian};
use frame_codec::Flags;
use std::alloc::{AllocError, Global};
use std::marker::Model;

/// How many bytes stand before what a fragment carries.
const HEAD: usize = 17;

/// Copies of fragments, in their order.
#[derive(Debug, Drop)]
pub struct FragmentCopies {
    /// Of each fragment the position in 8 bytes, the flags in one, and in 8 how many bytes it carries, which follow.
    bytes: Vec<u8>,
}

impl Model for FragmentCopies {
    ghost use Rattle.std.specs.Prelude.{List};
    ghost use Rattle.log_pairs.specs.Copies.{AreWritten, read_all};
    ghost use Rattle.log_pairs.specs.Polling.{Fetched};

    ghost Value = { List Fetched };

    ghost view = { λ copies. read_all copies.bytes.items };

    ghost invariant = { λ copies. AreWritten copies.bytes.items };
}

/// What stands before the bytes that a fragment carries.
fn head_of(fragment: &Fragment<'_>) -> [u8; HEAD]
    ensures bytes { result ≡ little_bytes 8 fragment.now.position ++ (fragment.now.flags.bits ∷ [] ++ little_bytes 8 (length fragment.now.payload.now)) }
    ensures fits { Fits (fetched_of fragment.now) }
{
    let position = fragment.position;
    let mut head = [0; HEAD];
    LittleEndian::write_u64(&mut head, position);
    head[8] = fragment.flags.bits;
    LittleEndian::write_u64(&mut head[9..], fragment.payload.len() as u64);
    head
}

/// Writes a fragment after what is written.
fn put(bytes: &mut Vec<u8>, fragment: &Fragment<'_>) -> Result<(), AllocError>
    ensures fits { OnOk result (Fits (fetched_of fragment.now)) }
    ensures ok { OnOk result (bytes.new.items ≡ bytes.old.items ++ written_one (fetched_of fragment.now)) }
    ensures err { OnErr result (bytes.new.items ≡ bytes.old.items) }
{
    bytes.reserve(HEAD + fragment.payload.len())?;
    let head = head_of(fragment);
    match bytes.extend_from_slice(&head) {
        Ok(()) => {}
        Err(_) => unreachable!(),
    }
    match bytes.extend_from_slice(fragment.payload) {
        Ok(()) => {}
        Err(_) => unreachable!(),
    }
    Ok(())
}

impl FragmentCopies {
    /// No copies yet, and room for those of fragments which carry, with 17 bytes for each, so many bytes in all.
    ///
    /// # Errors
    /// Where there is no memory for them.
    pub fn new(alloc: Global, room: usize) -> Result<FragmentCopies, AllocError>
        ensures { IfOk result (λ copies. copies ≡ []) }
    {
        Ok(FragmentCopies {
            bytes: Vec::with_capacity(alloc, room)?,
        })
    }

    /// Puts a copy of a fragment after the others. It takes memory where the room was too small.
    ///
    /// # Errors
    /// Nothing is changed where there is no memory.
    pub fn push(&mut self, fragment: &Fragment<'_>) -> Result<(), AllocError>
        ensures ok { OnOk result (self.new ≡ self.old ++ fetched_of fragment.now ∷ []) }
        ensures err { OnErr result (self.new ≡ self.old) }
    {
        put(&mut self.bytes, fragment)
    }

    /// How many there are: each is looked at.
    pub fn len(&self) -> usize
        ensures { result ≡ length self.now }
    {
        let _ = self.bytes.len();
        let mut count = 0;
        for _ in self.iter() {
            count += 1;
        }
        count
    }

    /// The fragments, in their order.
    pub fn iter(&self) -> CopiedFragments<'_>
        ensures { result ≡ self.now }
    {
        CopiedFragments {
            rest: self.bytes.as_slice(),
        }
    }
}

impl PartialEq for FragmentCopies {
    ghost use Rattle.log_pairs.specs.Copies.{copies_eq, copies_eq_equiv};
    ghost use Rattle.std.specs.Cmp.{partial_equiv_from_equiv};

    ghost eq = { copies_eq };

    ghost laws = { partial_equiv_from_equiv copies_eq_equiv };

    /// Whether they are copies of the same fragments.
    fn eq(&self, other: &FragmentCopies) -> bool {
        self.bytes == other.bytes
    }
}

impl Eq for FragmentCopies {
    ghost use Rattle.log_pairs.specs.Copies.{copies_eq_equiv};

    ghost laws = { copies_eq_equiv };
}

/// The fragments of copies, in their order.
#[derive(Debug, Drop)]
pub struct CopiedFragments<'a> {
    rest: &'a [u8],
}

impl<'a> Model for CopiedFragments<'a> {
    ghost use Rattle.std.specs.Prelude.{List};
    ghost use Rattle.log_pairs.specs.Copies.{AreWritten, read_all};
    ghost use Rattle.log_pairs.specs.Polling.{Fetched};

    ghost Value = { List Fetched };

    ghost view = { λ fragments. read_all fragments.rest.now };

    ghost invariant = { λ fragments. AreWritten fragments.rest.now };
}

/// The fragment at the front of written bytes, and the bytes after it.
fn first(bytes: &[u8]) -> (Fragment<'_>, &[u8])
    requires head { 17 ≤ length bytes.now }
    requires payload { 17 + little_number 8 (drop 9 bytes.now) ≤ length bytes.now }
    ensures first { fetched_of result.0 ≡ read_one bytes.now }
    ensures behind { result.1.now ≡ behind_one bytes.now }
{
    let (head, rest) = bytes.split_at(HEAD);
    let size = LittleEndian::read_u64(&head[9..]) as usize;
    let (payload, behind) = rest.split_at(size);
    let fragment = Fragment {
        position: LittleEndian::read_u64(head),
        flags: Flags { bits: head[8] },
        payload,
    };
    (fragment, behind)
}

impl<'a> Iterator for CopiedFragments<'a> {
    ghost use Rattle.log_pairs.specs.Polling.{fetched_of};
    ghost use Rattle.std.specs.Iterator.{YieldsFirstBy, item_count};

    type Item = Fragment<'a>;

    ghost next_gives = { YieldsFirstBy fetched_of (λ rest. rest) };

    ghost remaining = { item_count (λ rest. rest) };

    fn next(&mut self) -> Option<Fragment<'a>> {
        if self.rest.is_empty() {
            return None;
        }
        let (fragment, behind) = first(self.rest);
        self.rest = behind;
        Some(fragment)
    }
}
