//! What is called.
ghost use Rattle.std.specs.Prelude.{◌≡◌};
ghost use Rattle.t3_frames.specs.Frame.{function, function_on};

use t3_holder::Holder;

/// A method that is called.
#[derive(Clone, Copy, Debug, PartialEq, Eq)]
pub struct Call {
    /// Its address.
    pub method: u32,
    /// Its first argument, where that is no operand.
    pub laid: Option<Holder>,
    /// How many of the topmost operands are its arguments, the topmost of them first.
    pub count: u16,
    /// Self: nil in a function.
    pub this: Holder,
    /// The object that defines it, or 0 for a function.
    pub defining: u32,
    /// Of a constructor, the object that it gives.
    pub gives: Option<u32>,
}

impl Call {
    /// A function that gets `count` of the topmost operands.
    #[inline(always)]
    pub fn function(method: u32, count: u16) -> Call
        ensures { result ≡ function method count }
    {
        Call {
            method,
            laid: None,
            count,
            this: Holder::Nil,
            defining: 0,
            gives: None,
        }
    }

    /// A function that gets one argument, which is no operand.
    #[inline(always)]
    pub fn function_on(method: u32, value: Holder) -> Call
        ensures { result ≡ function_on method value }
    {
        Call {
            laid: Some(value),
            ..Call::function(method, 0)
        }
    }
}
