//! Takes a stream run by run: the header, then each block's header and payload.
ghost use Rattle.std.specs.Prelude.{◌≡◌, ◌≢◌, ◌+◌, ◌<◌, ◌≤◌, [], ◌++◌, length, IfOk, IfErr, IfSome};
ghost use Rattle.t3_blocks.specs.BlockName.{HasKind, end_name};
ghost use Rattle.t3_blocks.specs.Parsing.{Gives};
ghost use Rattle.t3_blocks.specs.Spelling.{image_limit};
ghost use Rattle.t3_image_read.specs.Refusal.{head_place};
ghost use Rattle.t3_image_read.specs.Validity.{header_limit};
ghost use Rattle.t3_image_read.specs.Reader.{RefusesBy};
ghost use Rattle.t3_image_read.specs.Inner.Faults.{head_why, payload_refusal};
ghost use Rattle.t3_image_read.specs.Inner.Steps.{size_of, stream_of, AtPart, IsSound, Holds, BeginsWhole, CountsBlock, Advances, TakesRun, Tallies};

use crate::header::{
    BlockHeader, HEAD_SIZE, HEADER_SIZE, HeadFault, VERSION_AT, head_fault, header_fault, read_head,
};
use crate::image::{Head, PlacedBlock};
use crate::refusal::{ReadRefusal, ReadWhy};
use crate::tally::Tally;
use std::alloc::{AllocError, Global};
use std::mem;
use t3_blocks::{Block, BlockKind, PayloadRefusal, spelled_block, take_block};
use t3_holder::Bytes;

/// The part of an image that comes next, or that is there in part.
#[derive(Clone, Copy, Debug)]
pub(crate) enum Part {
    InHead,
    InHeader,
    InPayload(BlockHeader, BlockKind),
}

/// What came of a run of bytes.
#[derive(Drop)]
pub(crate) enum Parsed {
    /// No block, or none yet.
    Nothing,
    Block(PlacedBlock),
    /// The end, which has these flags.
    End(u16),
}

/// What was taken so far, and the bytes of the part that isn't whole yet. Blocks are handed on.
#[derive(Drop)]
pub(crate) struct Taker {
    pub(crate) alloc: Global,
    pub(crate) part: Part,
    pub(crate) held: Vec<u8>,
    pub(crate) head: Head,
    pub(crate) blocks: Tally,
    /// Where the block begins that is being taken.
    pub(crate) place: u32,
}

impl Part {
    /// How many bytes the part has.
    fn size(self) -> usize
        ensures { result ≡ size_of self }
    {
        match self {
            Part::InHead => HEAD_SIZE,
            Part::InHeader => HEADER_SIZE,
            Part::InPayload(header, _) => header.size as usize,
        }
    }
}

impl Taker {
    /// Before the first byte. It takes no memory.
    pub(crate) fn new(alloc: Global) -> Taker
        ensures sound { IsSound result }
        ensures nothing { stream_of result ≡ [] }
        ensures no_block { result.blocks ≡ [] }
    {
        Taker {
            alloc,
            part: Part::InHead,
            held: Vec::new(alloc),
            head: Head {
                reserved: [0; 32],
                stamp: [0; 24],
            },
            blocks: Tally::new(),
            place: 0,
        }
    }

    /// Takes the bytes that the part still wants, as far as they are there, and gives their number and what
    /// came of them.
    pub(crate) fn take_run(&mut self, rest: &[u8]) -> Result<(usize, Parsed), ReadRefusal>
        requires sound { IsSound self.old }
        requires some { 0 < length rest.now }
        ensures taken { IfOk result (TakesRun self.old self.new rest.now) }
        ensures blocks { IfOk result (λ run. Tallies self.old self.new run.1) }
        ensures refused { IfErr result (RefusesBy (stream_of self.old ++ rest.now)) }
    {
        match self.whole_payload(rest) {
            Some((header, kind)) => self.take_whole(header, kind, rest),
            None => self.take_part(rest),
        }
    }

    /// The header of the block whose payload comes next, if it is whole there.
    fn whole_payload(&self, rest: &[u8]) -> Option<(BlockHeader, BlockKind)>
        ensures { IfSome result (BeginsWhole self.now rest.now) }
    {
        match self.part {
            Part::InPayload(header, kind)
                if self.held.is_empty() && header.size as usize <= rest.len() => {
                Some((header, kind))
            }
            _ => None,
        }
    }

    /// Takes a payload that is whole there. Only what its block keeps of it is copied.
    fn take_whole(
        &mut self,
        header: BlockHeader,
        kind: BlockKind,
        rest: &[u8],
    ) -> Result<(usize, Parsed), ReadRefusal>
        requires sound { IsSound self.old }
        requires begins { BeginsWhole self.old rest.now (header, kind) }
        ensures taken { IfOk result (TakesRun self.old self.new rest.now) }
        ensures blocks { IfOk result (λ run. Tallies self.old self.new run.1) }
        ensures refused { IfErr result (RefusesBy (stream_of self.old ++ rest.now)) }
    {
        let payload = &rest[..header.size as usize];
        let given = spelled_block(self.alloc, kind, header.name, payload);
        let placed = self.count_block(header, given)?;
        Ok((payload.len(), Parsed::Block(placed)))
    }

    /// Holds the bytes that the part still wants, as far as they are there, and goes on where it is whole.
    fn take_part(&mut self, rest: &[u8]) -> Result<(usize, Parsed), ReadRefusal>
        requires sound { IsSound self.old }
        requires some { 0 < length rest.now }
        ensures taken { IfOk result (TakesRun self.old self.new rest.now) }
        ensures blocks { IfOk result (λ run. Tallies self.old self.new run.1) }
        ensures refused { IfErr result (RefusesBy (stream_of self.old ++ rest.now)) }
    {
        let count = self.hold(rest)?;
        let parsed = self.advance()?;
        Ok((count, parsed))
    }

    /// Copies those bytes. More room is made for what comes now, or as much again as is there, so that a
    /// size that no bytes follow costs nothing.
    fn hold(&mut self, rest: &[u8]) -> Result<usize, AllocError>
        requires short { length self.old.held.items < size_of self.old.part }
        requires some { 0 < length rest.now }
        ensures { IfOk result (Holds self.old self.new rest.now) }
    {
        let held = self.held.len();
        let wanted = self.part.size() - held;
        let count = wanted.min(rest.len());
        if self.held.capacity() - held < count {
            self.held.reserve_exact(wanted.min(count.max(held)))?;
        }
        self.held.extend_from_slice(&rest[..count])?;
        Ok(count)
    }

    /// Goes on to the next part where this one is whole, and gives what came of it.
    fn advance(&mut self) -> Result<Parsed, ReadRefusal>
        requires at { AtPart self.old.part self.old }
        requires within { length self.old.held.items ≤ size_of self.old.part }
        ensures advanced { IfOk result (Advances self.old self.new) }
        ensures blocks { IfOk result (Tallies self.old self.new) }
        ensures refused { IfErr result (RefusesBy (stream_of self.old)) }
    {
        match self.part {
            Part::InHead => self.advance_from_head(),
            Part::InHeader => self.advance_from_header(),
            Part::InPayload(header, kind) => self.advance_from_payload(header, kind),
        }
    }

    fn advance_from_head(&mut self) -> Result<Parsed, ReadRefusal>
        requires part { self.old.part ≡ Part.InHead }
        requires at { AtPart self.old.part self.old }
        requires within { length self.old.held.items ≤ size_of self.old.part }
        ensures advanced { IfOk result (Advances self.old self.new) }
        ensures blocks { IfOk result (Tallies self.old self.new) }
        ensures refused { IfErr result (RefusesBy (stream_of self.old)) }
    {
        if let Some(fault) = head_fault(&self.held) {
            return Err(refused_head(fault));
        }
        if self.held.len() < HEAD_SIZE {
            return Ok(Parsed::Nothing);
        }
        self.head = read_head(&self.held);
        self.held.clear();
        self.part = Part::InHeader;
        self.place = HEAD_SIZE as u32;
        Ok(Parsed::Nothing)
    }

    fn advance_from_header(&mut self) -> Result<Parsed, ReadRefusal>
        requires part { self.old.part ≡ Part.InHeader }
        requires at { AtPart self.old.part self.old }
        requires within { length self.old.held.items ≤ size_of self.old.part }
        ensures advanced { IfOk result (Advances self.old self.new) }
        ensures blocks { IfOk result (Tallies self.old self.new) }
        ensures refused { IfErr result (RefusesBy (stream_of self.old)) }
    {
        if self.held.len() < HEADER_SIZE {
            return Ok(Parsed::Nothing);
        }
        let header = BlockHeader::read(&self.held);
        let kind = BlockKind::of(header.name);
        let place = self.place;
        if let Some(fault) = header_fault(self.blocks.count(), place, header, kind) {
            return Err(ReadRefusal::At {
                place,
                why: fault.why(),
            });
        }
        match kind {
            BlockKind::End => Ok(Parsed::End(header.flags)),
            _ => {
                self.held.clear();
                self.part = Part::InPayload(header, kind);
                self.advance_from_payload(header, kind)
            }
        }
    }

    fn advance_from_payload(
        &mut self,
        header: BlockHeader,
        kind: BlockKind,
    ) -> Result<Parsed, ReadRefusal>
        requires part { self.old.part ≡ Part.InPayload header kind }
        requires at { AtPart self.old.part self.old }
        requires within { length self.old.held.items ≤ size_of self.old.part }
        ensures advanced { IfOk result (Advances self.old self.new) }
        ensures blocks { IfOk result (Tallies self.old self.new) }
        ensures refused { IfErr result (RefusesBy (stream_of self.old)) }
    {
        if self.held.len() < header.size as usize {
            return Ok(Parsed::Nothing);
        }
        let given = self.take_held(header.name, kind);
        let placed = self.count_block(header, given)?;
        Ok(Parsed::Block(placed))
    }

    /// The block that the held bytes spell, which are held no more. Where the block is those bytes, it has
    /// their memory; else that memory is there for the next payload.
    fn take_held(&mut self, name: [u8; 4], kind: BlockKind) -> Result<Block, PayloadRefusal>
        requires name { name ≢ end_name }
        requires kind { HasKind name kind }
        requires size { length self.old.held.items ≤ image_limit }
        ensures gives { Gives name self.old.held.items result }
        ensures none { self.new.held.items ≡ [] }
        ensures others { self.new ≡ record self.old { held = self.new.held } }
    {
        match kind {
            BlockKind::Kept | BlockKind::Unknown => {
                let mut payload = mem::replace(&mut self.held, Vec::new(self.alloc));
                payload.shrink_to_fit();
                take_block(self.alloc, kind, name, Bytes(payload))
            }
            _ => {
                let given = spelled_block(self.alloc, kind, name, &self.held);
                self.held.clear();
                given
            }
        }
    }

    /// Counts the block that the payload after a header gave.
    fn count_block(
        &mut self,
        header: BlockHeader,
        given: Result<Block, PayloadRefusal>,
    ) -> Result<PlacedBlock, ReadRefusal>
        requires near { self.old.place + 10 + header.size ≤ image_limit }
        requires few { length self.old.blocks < header_limit }
        ensures { CountsBlock self.old self.new header given result }
    {
        match given {
            Ok(block) => {
                let placed = PlacedBlock {
                    flags: header.flags,
                    block,
                };
                self.blocks.add(&placed);
                self.part = Part::InHeader;
                self.place += HEADER_SIZE as u32 + header.size;
                Ok(placed)
            }
            Err(refusal) => Err(refused_payload(self.place, refusal)),
        }
    }
}

/// The refusal by a fault of the header. Only the version has a place of its own.
fn refused_head(fault: HeadFault) -> ReadRefusal
    ensures { result ≡ ReadRefusal.At (head_place (head_why fault)) (head_why fault) }
{
    let place = match fault {
        HeadFault::Signature => 0,
        HeadFault::Version => VERSION_AT as u32,
    };
    ReadRefusal::At {
        place,
        why: fault.why(),
    }
}

/// The refusal by the payload of a block that begins at a place.
fn refused_payload(place: u32, refusal: PayloadRefusal) -> ReadRefusal
    ensures { result ≡ payload_refusal place refusal }
{
    match refusal {
        PayloadRefusal::Malformed { items } => ReadRefusal::At {
            place,
            why: ReadWhy::Malformed { items },
        },
        PayloadRefusal::NoMemory => ReadRefusal::NoMemory,
    }
}
