//! The reader as its callers see it.
ghost use Rattle.std.specs.Prelude.{◌≡◌, ◌≢◌, ℕ, ◌+◌, ◌<◌, ◌^◌, ◌⊎◌, List, [], ◌++◌, IfOk, IfErr};
ghost use Rattle.t3_image_read.specs.ImageText.{ImageValue};
ghost use Rattle.t3_image_read.specs.Validity.{IsValid};
ghost use Rattle.t3_image_read.specs.Refusal.{Refused};
ghost use Rattle.t3_image_read.specs.Reader.{Taking as TakingOf, Feeds, Finishes, FinishesAs, FinishesParts, totals_of, EndsIn, RefusesBy};
ghost use Rattle.t3_image_read.specs.Inner.Steps.{stream_of, IsSound, TakesAll};
ghost use Rattle.t3_image_read.specs.Inner.Reading.{reading_of, IsSoundState};
ghost use Rattle.t3_image_read.specs.declared.refusal.ReadWhy.{ReadWhy as Why};
ghost use Rattle.t3_image_read.specs.declared.refusal.ReadWhy.TheVariants.{Truncated as ForBeingCut};

use crate::header::HEADER_SIZE;
use crate::image::{Head, Image, Placed};
use crate::refusal::{ReadRefusal, ReadWhy};
use crate::sink::{BlockSink, Discard};
use crate::taker::{Parsed, Taker};
use crate::tally::Tally;
use std::alloc::Global;
use std::marker::Model;
use std::mem;

/// What feeding a piece gave.
#[derive(Clone, Copy, Debug, PartialEq, Eq, Hash)]
pub enum Fed {
    /// All of the piece was taken, and the image goes on.
    More,
    /// The image ends after so many bytes of this piece.
    Done { used: usize },
}

/// What is counted of an image.
#[derive(Clone, Copy, Debug, PartialEq, Eq, Hash)]
pub struct Totals {
    /// How many blocks it has, the one that ends it among them.
    pub blocks: usize,
    /// How many bytes it has.
    pub bytes: usize,
}

/// The parts of an image, whose blocks a sink has taken.
#[derive(Drop)]
pub struct ImageParts<S: BlockSink> {
    pub head: Head,
    pub sink: S,
    /// The flags of the block that ends the image.
    pub eof_flags: u16,
}

/// An image that was taken whole: its parts, its blocks for contracts, and how many bytes it has.
#[derive(Drop)]
pub(crate) struct Complete<S: BlockSink> {
    pub(crate) parts: ImageParts<S>,
    pub(crate) blocks: Tally,
    pub(crate) size: u32,
}

/// How taking the stream has gone so far. What was held of a payload is let go with the taking.
#[derive(Drop)]
pub(crate) enum State<S: BlockSink> {
    Taking(Taker, S),
    Ended(Complete<S>),
    Failed(ReadRefusal),
}

/// Takes an image in pieces. Contracts see the bytes that it has taken, or the image, or the refusal.
#[derive(Drop)]
pub struct Reader<S: BlockSink> {
    state: State<S>,
}

/// Reads an image, and keeps its blocks.
pub type ImageReader = Reader<Placed>;

/// Reads an image by the same rules, and only counts its blocks and bytes.
pub type ImageChecker = Reader<Discard>;

impl<S: BlockSink> Model for Reader<S> {
    ghost use Rattle.t3_image_read.specs.Reader.{Reading};
    ghost use Rattle.t3_image_read.specs.Inner.Reading.{reading_of, IsSoundState};

    ghost Value = { Reading };

    ghost view = { λ r. reading_of r.state };

    ghost invariant = { λ r. IsSoundState S.has_taken r.state };
}

impl<S: BlockSink> Reader<S> {
    /// A reader that has taken nothing, and hands each block on to a sink that has taken none. It takes no
    /// memory.
    pub fn with_sink(alloc: Global, sink: S) -> Reader<S>
        requires { S.has_taken sink [] }
        ensures { result ≡ TakingOf [] }
    {
        Reader {
            state: State::Taking(Taker::new(alloc), sink),
        }
    }

    /// Takes the next piece of the stream.
    ///
    /// Want of memory aside, `Done` exactly where the image ends in this piece; a refusal as soon as the
    /// stream so far shows the fault, and never for being cut; else `More`. After `Done` nothing is taken
    /// and the answer is `Done { used: 0 }`. After a refusal the answer is that same refusal.
    pub fn feed(&mut self, piece: &[u8]) -> Result<Fed, ReadRefusal>
        ensures feeds { Feeds self.old piece.now result self.new }

        // The other direction of each answer, want of memory aside.
        ensures done { (before : List ℕ) (used : ℕ) (image : ImageValue)
            → self.old ≡ TakingOf before → EndsIn before piece.now used image
            → (result ≡ Ok (Fed.Done used)) ⊎ (result ≡ Err ReadRefusal.NoMemory) }
        ensures refuses { (before : List ℕ) (place : ℕ) (why : Why)
            → self.old ≡ TakingOf before → Refused (before ++ piece.now) place why
            → why ≢ ForBeingCut
            → (result ≡ Err (ReadRefusal.At place why)) ⊎ (result ≡ Err ReadRefusal.NoMemory) }
        ensures more { (before : List ℕ) (place : ℕ)
            → self.old ≡ TakingOf before → Refused (before ++ piece.now) place ForBeingCut
            → (result ≡ Ok Fed.More) ⊎ (result ≡ Err ReadRefusal.NoMemory) }
    {
        let state = mem::replace(&mut self.state, State::Failed(ReadRefusal::NoMemory));
        let (state, answer) = state.feed(piece);
        self.state = state;
        answer
    }

    /// The parts of the image after `Done`, and else the refusal: that which was answered, or `Truncated` where
    /// the stream ends before the image does.
    pub fn into_parts(self) -> Result<ImageParts<S>, ReadRefusal>
        ensures { FinishesParts S.has_taken self result }
    {
        let Reader { state } = self;
        match state {
            State::Taking(taker, _) => Err(cut_at(taker.place)),
            State::Ended(complete) => Ok(complete.parts),
            State::Failed(refusal) => Err(refusal),
        }
    }
}

impl Reader<Placed> {
    /// A reader that has taken nothing. It takes no memory.
    pub fn new(alloc: Global) -> ImageReader
        ensures { result ≡ TakingOf [] }
    {
        Reader::with_sink(alloc, Placed(Vec::new(alloc)))
    }

    /// The image after `Done`, and else the refusal: that which was answered, or `Truncated` where the
    /// stream ends before the image does.
    pub fn finish(self) -> Result<Image, ReadRefusal>
        ensures finishes { Finishes self result }
        ensures valid { IfOk result IsValid }
    {
        match self.into_parts() {
            Ok(parts) => Ok(Image {
                head: parts.head,
                blocks: parts.sink,
                eof_flags: parts.eof_flags,
            }),
            Err(refusal) => Err(refusal),
        }
    }
}

impl Reader<Discard> {
    /// A reader that has taken nothing. It takes no memory.
    pub fn new(alloc: Global) -> ImageChecker
        ensures { result ≡ TakingOf [] }
    {
        Reader::with_sink(alloc, Discard)
    }

    /// What was counted of the image after `Done`, and else the refusal, as [`ImageReader::finish`] gives it.
    pub fn totals(self) -> Result<Totals, ReadRefusal>
        ensures { FinishesAs totals_of self result }
    {
        let Reader { state } = self;
        match state {
            State::Taking(taker, _) => Err(cut_at(taker.place)),
            State::Ended(complete) => Ok(Totals {
                blocks: complete.blocks.count() + 1,
                bytes: complete.size as usize,
            }),
            State::Failed(refusal) => Err(refusal),
        }
    }
}

impl<S: BlockSink> State<S> {
    fn feed(self, piece: &[u8]) -> (State<S>, Result<Fed, ReadRefusal>)
        requires { IsSoundState S.has_taken self }
        ensures sound { IsSoundState S.has_taken result.0 }
        ensures feeds { Feeds (reading_of self) piece.now result.1 (reading_of result.0) }
    {
        match self {
            State::Taking(mut taker, mut sink) => match feed_blocks(&mut taker, &mut sink, piece) {
                Ok(None) => (State::Taking(taker, sink), Ok(Fed::More)),
                Ok(Some((used, flags))) => (
                    State::Ended(completed(taker, sink, flags)),
                    Ok(Fed::Done { used }),
                ),
                Err(refusal) => (State::Failed(refusal), Err(refusal)),
            },
            State::Ended(complete) => (State::Ended(complete), Ok(Fed::Done { used: 0 })),
            State::Failed(refusal) => (State::Failed(refusal), Err(refusal)),
        }
    }
}

/// Takes a piece up to the end of the image, hands its blocks on to the sink, and answers how many bytes
/// that was and the end's flags, or `None` where all of it was taken and the image goes on.
fn feed_blocks<S: BlockSink>(
    taker: &mut Taker,
    sink: &mut S,
    piece: &[u8],
) -> Result<Option<(usize, u16)>, ReadRefusal>
    requires sound { IsSound taker.old }
    requires sink { S.has_taken sink.old taker.old.blocks }
    ensures taken { IfOk result (TakesAll taker.old taker.new piece.now) }
    ensures sink { IfOk result (λ _. S.has_taken sink.new taker.new.blocks) }
    ensures refused { IfErr result (RefusesBy (stream_of taker.old ++ piece.now)) }
{
    let mut at = 0;
    while at < piece.len() {
        let (count, parsed) = taker.take_run(&piece[at..])?;
        at += count;
        match parsed {
            Parsed::Nothing => {}
            Parsed::Block(placed) => sink.take(placed)?,
            Parsed::End(flags) => return Ok(Some((at, flags))),
        }
    }
    Ok(None)
}

/// The image that ends with these flags.
fn completed<S: BlockSink>(taker: Taker, sink: S, eof_flags: u16) -> Complete<S>
    requires near { taker.place + 10 < 2 ^ 32 }
    ensures parts { result.parts ≡ record { head = taker.head; sink = sink; eof_flags = eof_flags } }
    ensures blocks { result.blocks ≡ taker.blocks }
    ensures size { result.size ≡ taker.place + 10 }
{
    Complete {
        parts: ImageParts {
            head: taker.head,
            sink,
            eof_flags,
        },
        blocks: taker.blocks,
        size: taker.place + HEADER_SIZE as u32,
    }
}

/// The refusal of a stream that ends in the part that begins here.
fn cut_at(place: u32) -> ReadRefusal
    ensures { result ≡ ReadRefusal.At place ForBeingCut }
{
    let why = ReadWhy::Truncated;
    ReadRefusal::At { place, why }
}
