//! The instructions, by the ranges of their opcodes. What each does is the machine's to say.

/// An instruction with its operands, in the order in which they stand.
#[derive(Clone, Copy, Debug, PartialEq, Eq, Hash)]
pub enum Instr {
    /// Opcodes 01 to 0F: what is pushed.
    Push(PushCode),
    /// Opcodes 20 to 45: what is computed of the topmost operands.
    Math(MathCode),
    /// Opcodes 50 to 77: what is called, and what is returned.
    Call(CallCode),
    /// Opcodes 80 to 8D: what is pushed of the frame, and how values move on the stack.
    Stack(StackCode),
    /// Opcodes 90 to 9D: where to go on.
    Jump(JumpCode),
    /// Opcodes B0 to C3: what is said, thrown, made, and called of built-in functions.
    Make(MakeCode),
    /// Opcodes D0 to F2: which local, argument, element or property is set; the last does nothing.
    Local(LocalCode),
}

/// Opcodes 01 to 0F: what is pushed.
#[derive(Clone, Copy, Debug, PartialEq, Eq, Hash)]
pub enum PushCode {
    /// The integer 0.
    Push0,
    /// The integer 1.
    Push1,
    /// The integer in one byte.
    Pushint8(i8),
    /// The integer in four bytes.
    Pushint(i32),
    /// The constant string at the address.
    Pushstr(u32),
    /// The constant list at the address.
    Pushlst(u32),
    /// The object of the number.
    Pushobj(u32),
    Pushnil,
    Pushtrue,
    /// The property of the number.
    Pushpropid(u16),
    /// The function at the address.
    Pushfnptr(u32),
    /// The enum of the number.
    Pushenum(u32),
}

/// Opcodes 20 to 45: what is computed of the topmost operands.
#[derive(Clone, Copy, Debug, PartialEq, Eq, Hash)]
pub enum MathCode {
    Neg,
    Bnot,
    Add,
    Sub,
    Mul,
    Band,
    Bor,
    Shl,
    /// Shifts to the right, and copies the sign.
    Ashr,
    Xor,
    Div,
    Mod,
    Not,
    Boolize,
    Inc,
    Dec,
    /// Shifts to the right, and fills with 0.
    Lshr,
    Eq,
    Ne,
    Lt,
    Le,
    Gt,
    Ge,
}

/// Opcodes 50 to 77: what is called, and what is returned.
#[derive(Clone, Copy, Debug, PartialEq, Eq, Hash)]
pub enum CallCode {
    /// Returns the popped value.
    Retval,
    /// Returns nil.
    Retnil,
    /// Returns true.
    Rettrue,
    /// Returns what the register has.
    Ret,
    /// The count of arguments, and the address of the function.
    Call(u8, u32),
    /// The count of arguments of the popped function.
    Ptrcall(u8),
    /// The property of the popped value.
    Getprop(u16),
    /// The count of arguments, and the property of the popped value.
    Callprop(u8, u16),
    /// The count of arguments of the popped property of the value popped next.
    Ptrcallprop(u8),
    /// The property of self.
    Getpropself(u16),
    /// The count of arguments, and the property of self.
    Callpropself(u8, u16),
    /// The count of arguments of the popped property of self.
    Ptrcallpropself(u8),
    /// The object, and its property.
    Objgetprop(u32, u16),
    /// The count of arguments, the object, and its property.
    Objcallprop(u8, u32, u16),
    /// The count of arguments, and the property, searched behind the defining object.
    Inherit(u8, u16),
    /// The count of arguments, the property, and the object in which it is searched.
    Expinherit(u8, u16, u32),
    /// The count of arguments, and the property, searched in the popped object.
    Delegate(u8, u16),
}

/// Opcodes 80 to 8D: what is pushed of the frame, and how values move on the stack.
#[derive(Clone, Copy, Debug, PartialEq, Eq, Hash)]
pub enum StackCode {
    /// Pushes the local.
    Getlcl1(u8),
    /// Pushes the local.
    Getlcl2(u16),
    /// Pushes the argument.
    Getarg1(u8),
    /// Pushes the argument.
    Getarg2(u16),
    Pushself,
    /// Pushes how many arguments there are.
    Getargc,
    /// Doubles the topmost operand.
    Dup,
    /// Drops the topmost operand.
    Disc,
    /// Drops so many operands.
    Disc1(u8),
    /// Pushes what the register has.
    Getr0,
    /// Exchanges the topmost two operands.
    Swap,
}

/// Opcodes 90 to 9D: where to go on. A jump's operand is the distance from that operand's
/// own address.
#[derive(Clone, Copy, Debug, PartialEq, Eq, Hash)]
pub enum JumpCode {
    /// By the first case equal to the popped value, else by the jump behind the last case.
    Switch {
        /// How many cases there are.
        count: u16,
        /// The address of the first. A case has 7 bytes, and the last jump stands behind them.
        at: u32,
    },
    Jmp(i16),
    /// Where the popped value is true.
    Jt(i16),
    /// Where the popped value is false.
    Jf(i16),
    /// Where the popped values are equal.
    Je(i16),
    /// Where they differ.
    Jne(i16),
    /// Where the lower of the popped values is greater than the topmost.
    Jgt(i16),
    Jge(i16),
    Jlt(i16),
    Jle(i16),
    /// Where the topmost operand is true, which then stays.
    Jst(i16),
    /// Where the topmost operand is false, which then stays.
    Jsf(i16),
    /// To a routine within the method: the way back is pushed.
    Ljsr(i16),
    /// Back to the offset that the local has.
    Lret(u16),
}

/// Opcodes B0 to C3: what is said, thrown, made, and called of built-in functions.
#[derive(Clone, Copy, Debug, PartialEq, Eq, Hash)]
pub enum MakeCode {
    /// Says the constant string at the address.
    Say(u32),
    /// The count of arguments, and the index of a function in set 0.
    Builtina(u8, u8),
    /// The same in set 1.
    Builtinb(u8, u8),
    /// The same in set 2.
    Builtinc(u8, u8),
    /// The same in set 3.
    Builtind(u8, u8),
    /// The count of arguments, the index of a function, and that of its set.
    Builtin1(u8, u8, u8),
    /// Throws the popped object.
    Throw,
    /// Says the popped value.
    Sayval,
    /// The element of a list or vector, or the value of a key.
    Index,
    /// Makes an object: the count of arguments, and the index of the metaclass.
    New1(u8, u8),
    /// The same, in two bytes each.
    New2(u16, u16),
    /// Makes a transient object.
    Trnew1(u8, u8),
    /// The same, in two bytes each.
    Trnew2(u16, u16),
}

/// Opcodes D0 to F2: which local, argument, element or property is set; the last does nothing.
#[derive(Clone, Copy, Debug, PartialEq, Eq, Hash)]
pub enum LocalCode {
    /// Adds 1 to the local.
    Inclcl(u16),
    /// Takes 1 from the local.
    Declcl(u16),
    /// Adds the integer to the local.
    Addilcl1(u8, i8),
    /// Adds the integer to the local.
    Addilcl4(u16, i32),
    /// Adds the popped value to the local.
    Addtolcl(u16),
    /// Takes the popped value from the local.
    Subfromlcl(u16),
    /// Sets the local to 0.
    Zerolcl1(u8),
    /// Sets the local to 0.
    Zerolcl2(u16),
    /// Sets the local to nil.
    Nillcl1(u8),
    /// Sets the local to nil.
    Nillcl2(u16),
    /// Sets the local to 1.
    Onelcl1(u8),
    /// Sets the local to 1.
    Onelcl2(u16),
    /// Sets the local to the popped value.
    Setlcl1(u8),
    /// Sets the local to the popped value.
    Setlcl2(u16),
    /// Sets the argument to the popped value.
    Setarg1(u8),
    /// Sets the argument to the popped value.
    Setarg2(u16),
    /// Sets the element or key, popped, of the container popped next, to the value popped last.
    Setind,
    /// Sets the property of the popped value to the value popped next.
    Setprop(u16),
    /// Sets the popped property of the value popped next to the value popped last.
    Ptrsetprop,
    /// Sets the property of self to the popped value.
    Setpropself(u16),
    /// Sets the property of the object to the popped value.
    Objsetprop(u32, u16),
    Nop,
}
