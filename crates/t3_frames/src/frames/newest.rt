//! What the newest frame has besides its values, and where it goes on.
ghost use Rattle.std.specs.Prelude.{◌≡◌, ◌+◌, ◌≤◌, ◌<◌, ◌^◌, length};
ghost use Rattle.t3_frames.specs.Frame.{room, of_newest, goes_to, carries_out};

use crate::frames::Frames;
use t3_holder::Holder;

impl Frames {
    /// How many locals the frame has.
    #[inline(always)]
    pub fn locals(&self) -> usize
        ensures { result ≡ length self.now.newest.locals }
    {
        self.newest.locals
    }

    /// How many arguments the frame has.
    #[inline(always)]
    pub fn arguments(&self) -> usize
        ensures count { result ≡ length self.now.newest.arguments }
        ensures few { result ≤ room }
    {
        self.newest.arguments
    }

    /// How many of them were given: the first ones. The others are those that a call may leave out.
    #[inline(always)]
    pub fn given(&self) -> usize
        ensures count { result ≡ self.now.newest.given }
        ensures few { result ≤ room }
    {
        self.newest.given
    }

    /// The address of the method, below 2^31.
    #[inline(always)]
    pub fn method(&self) -> u32
        ensures address { result ≡ self.now.newest.method }
        ensures within { result < 2 ^ 31 }
    {
        self.newest.method
    }

    /// The address of the instruction that is carried out.
    #[inline(always)]
    pub fn place(&self) -> u32
        ensures { result ≡ self.now.newest.place }
    {
        self.newest.place
    }

    /// The address behind that instruction, while it is carried out.
    #[inline(always)]
    pub fn next(&self) -> u32
        ensures { result ≡ self.now.newest.next }
    {
        self.newest.next
    }

    /// Self: nil in a function.
    #[inline(always)]
    pub fn this(&self) -> Holder
        ensures { result ≡ self.now.newest.this }
    {
        self.newest.this
    }

    /// The object that defines the method, or 0 in a function.
    #[inline(always)]
    pub fn defining(&self) -> u32
        ensures { result ≡ self.now.newest.defining }
    {
        self.newest.defining
    }

    /// In a constructor, the object that it gives.
    #[inline(always)]
    pub fn gives(&self) -> Option<u32>
        ensures { result ≡ self.now.newest.gives }
    {
        self.newest.gives
    }

    /// Begins to carry out the instruction at the frame's place, which has so many bytes.
    #[inline(always)]
    pub fn carry_out(&mut self, size: u32)
        requires { self.old.newest.place + size < 2 ^ 32 }
        ensures { self.new ≡ of_newest (carries_out size) self.old }
    {
        self.newest.next = self.newest.place + size;
    }

    /// Goes on behind the instruction that is carried out.
    #[inline(always)]
    pub fn go_on(&mut self)
        ensures { self.new ≡ of_newest (goes_to self.old.newest.next) self.old }
    {
        self.newest.place = self.newest.next;
    }

    /// Goes to an instruction.
    #[inline(always)]
    pub fn go_to(&mut self, address: u32)
        ensures { self.new ≡ of_newest (goes_to address) self.old }
    {
        self.newest.place = address;
        self.newest.next = address;
    }
}
