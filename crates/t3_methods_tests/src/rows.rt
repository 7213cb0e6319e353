//! Every opcode with operands, and the instruction that they are, by hand from the table.

/// An instruction's bytes, and how it is printed.
pub type Row = (&'static [u8], &'static str);

/// The opcodes from 01 to 30.
pub const CONSTANTS_AND_NUMBERS: [Row; 29] = [
    (b"\x01", "Push(Push0)"),
    (b"\x02", "Push(Push1)"),
    (b"\x03\xFE", "Push(Pushint8(-2))"),
    (b"\x04\x01\x02\x03\x84", "Push(Pushint(-2080177663))"),
    (b"\x05\x01\x02\x03\x84", "Push(Pushstr(2214789633))"),
    (b"\x06\x00\x00\x00\x00", "Push(Pushlst(0))"),
    (b"\x07\x01\x00\x00\x00", "Push(Pushobj(1))"),
    (b"\x08", "Push(Pushnil)"),
    (b"\x09", "Push(Pushtrue)"),
    (b"\x0A\x01\x80", "Push(Pushpropid(32769))"),
    (b"\x0B\xFF\xFF\xFF\xFF", "Push(Pushfnptr(4294967295))"),
    (b"\x0F\x10\x00\x00\x00", "Push(Pushenum(16))"),
    (b"\x20", "Math(Neg)"),
    (b"\x21", "Math(Bnot)"),
    (b"\x22", "Math(Add)"),
    (b"\x23", "Math(Sub)"),
    (b"\x24", "Math(Mul)"),
    (b"\x25", "Math(Band)"),
    (b"\x26", "Math(Bor)"),
    (b"\x27", "Math(Shl)"),
    (b"\x28", "Math(Ashr)"),
    (b"\x29", "Math(Xor)"),
    (b"\x2A", "Math(Div)"),
    (b"\x2B", "Math(Mod)"),
    (b"\x2C", "Math(Not)"),
    (b"\x2D", "Math(Boolize)"),
    (b"\x2E", "Math(Inc)"),
    (b"\x2F", "Math(Dec)"),
    (b"\x30", "Math(Lshr)"),
];

/// The opcodes from 40 to 77.
pub const TESTS_AND_CALLS: [Row; 23] = [
    (b"\x40", "Math(Eq)"),
    (b"\x41", "Math(Ne)"),
    (b"\x42", "Math(Lt)"),
    (b"\x43", "Math(Le)"),
    (b"\x44", "Math(Gt)"),
    (b"\x45", "Math(Ge)"),
    (b"\x50", "Call(Retval)"),
    (b"\x51", "Call(Retnil)"),
    (b"\x52", "Call(Rettrue)"),
    (b"\x54", "Call(Ret)"),
    (b"\x58\x03\x10\x00\x00\x00", "Call(Call(3, 16))"),
    (b"\x59\xFF", "Call(Ptrcall(255))"),
    (b"\x60\x02\x00", "Call(Getprop(2))"),
    (b"\x61\x01\x02\x00", "Call(Callprop(1, 2))"),
    (b"\x62\x01", "Call(Ptrcallprop(1))"),
    (b"\x63\x00\x01", "Call(Getpropself(256))"),
    (b"\x64\x02\x03\x00", "Call(Callpropself(2, 3))"),
    (b"\x65\x00", "Call(Ptrcallpropself(0))"),
    (b"\x66\x07\x00\x00\x00\x02\x00", "Call(Objgetprop(7, 2))"),
    (
        b"\x67\x01\x07\x00\x00\x00\x02\x00",
        "Call(Objcallprop(1, 7, 2))",
    ),
    (b"\x72\x01\x02\x00", "Call(Inherit(1, 2))"),
    (
        b"\x74\x01\x02\x00\x07\x00\x00\x00",
        "Call(Expinherit(1, 2, 7))",
    ),
    (b"\x77\x01\x02\x00", "Call(Delegate(1, 2))"),
];

/// The opcodes from 80 to B9.
pub const VALUES_AND_JUMPS: [Row; 33] = [
    (b"\x80\xFF", "Stack(Getlcl1(255))"),
    (b"\x81\x00\x01", "Stack(Getlcl2(256))"),
    (b"\x82\x00", "Stack(Getarg1(0))"),
    (b"\x83\x01\x00", "Stack(Getarg2(1))"),
    (b"\x84", "Stack(Pushself)"),
    (b"\x87", "Stack(Getargc)"),
    (b"\x88", "Stack(Dup)"),
    (b"\x89", "Stack(Disc)"),
    (b"\x8A\x03", "Stack(Disc1(3))"),
    (b"\x8B", "Stack(Getr0)"),
    (b"\x8D", "Stack(Swap)"),
    (b"\x90\x00\x00\x05\x00", "Jump(Switch { count: 0, at: 3 })"),
    (b"\x91\xFF\x7F", "Jump(Jmp(32767))"),
    (b"\x92\x00\x80", "Jump(Jt(-32768))"),
    (b"\x93\xFF\xFF", "Jump(Jf(-1))"),
    (b"\x94\x01\x00", "Jump(Je(1))"),
    (b"\x95\x01\x00", "Jump(Jne(1))"),
    (b"\x96\x01\x00", "Jump(Jgt(1))"),
    (b"\x97\x01\x00", "Jump(Jge(1))"),
    (b"\x98\x01\x00", "Jump(Jlt(1))"),
    (b"\x99\x01\x00", "Jump(Jle(1))"),
    (b"\x9A\x01\x00", "Jump(Jst(1))"),
    (b"\x9B\x01\x00", "Jump(Jsf(1))"),
    (b"\x9C\x01\x00", "Jump(Ljsr(1))"),
    (b"\x9D\x01\x00", "Jump(Lret(1))"),
    (b"\xB0\x01\x00\x00\x00", "Make(Say(1))"),
    (b"\xB1\x02\xFF", "Make(Builtina(2, 255))"),
    (b"\xB2\x01\x00", "Make(Builtinb(1, 0))"),
    (b"\xB3\x00\x00", "Make(Builtinc(0, 0))"),
    (b"\xB4\x00\x01", "Make(Builtind(0, 1))"),
    (b"\xB5\x01\x02\x03", "Make(Builtin1(1, 2, 3))"),
    (b"\xB8", "Make(Throw)"),
    (b"\xB9", "Make(Sayval)"),
];

/// The opcodes from BA to F2.
pub const MAKING_AND_SETTING: [Row; 27] = [
    (b"\xBA", "Make(Index)"),
    (b"\xC0\x01\x02", "Make(New1(1, 2))"),
    (b"\xC1\x01\x00\x02\x01", "Make(New2(1, 258))"),
    (b"\xC2\x01\x02", "Make(Trnew1(1, 2))"),
    (b"\xC3\x00\x01\x02\x00", "Make(Trnew2(256, 2))"),
    (b"\xD0\x01\x00", "Local(Inclcl(1))"),
    (b"\xD1\x01\x00", "Local(Declcl(1))"),
    (b"\xD2\x01\x80", "Local(Addilcl1(1, -128))"),
    (
        b"\xD3\x01\x00\xFF\xFF\xFF\x7F",
        "Local(Addilcl4(1, 2147483647))",
    ),
    (b"\xD4\x01\x00", "Local(Addtolcl(1))"),
    (b"\xD5\x01\x00", "Local(Subfromlcl(1))"),
    (b"\xD6\x01", "Local(Zerolcl1(1))"),
    (b"\xD7\x00\x01", "Local(Zerolcl2(256))"),
    (b"\xD8\x01", "Local(Nillcl1(1))"),
    (b"\xD9\x00\x01", "Local(Nillcl2(256))"),
    (b"\xDA\x01", "Local(Onelcl1(1))"),
    (b"\xDB\x00\x01", "Local(Onelcl2(256))"),
    (b"\xE0\x01", "Local(Setlcl1(1))"),
    (b"\xE1\x00\x01", "Local(Setlcl2(256))"),
    (b"\xE2\x01", "Local(Setarg1(1))"),
    (b"\xE3\x00\x01", "Local(Setarg2(256))"),
    (b"\xE4", "Local(Setind)"),
    (b"\xE5\x01\x00", "Local(Setprop(1))"),
    (b"\xE6", "Local(Ptrsetprop)"),
    (b"\xE7\x01\x00", "Local(Setpropself(1))"),
    (b"\xE8\x07\x00\x00\x00\x02\x00", "Local(Objsetprop(7, 2))"),
    (b"\xF2", "Local(Nop)"),
];

/// Every opcode.
pub const KNOWN: &[u8; 112] =
    b"\x01\x02\x03\x04\x05\x06\x07\x08\x09\x0A\x0B\x0F\x20\x21\x22\x23\x24\x25\
\x26\x27\x28\x29\x2A\x2B\x2C\x2D\x2E\x2F\x30\x40\x41\x42\x43\x44\x45\x50\
\x51\x52\x54\x58\x59\x60\x61\x62\x63\x64\x65\x66\x67\x72\x74\x77\x80\x81\
\x82\x83\x84\x87\x88\x89\x8A\x8B\x8D\x90\x91\x92\x93\x94\x95\x96\x97\x98\
\x99\x9A\x9B\x9C\x9D\xB0\xB1\xB2\xB3\xB4\xB5\xB8\xB9\xBA\xC0\xC1\xC2\xC3\
\xD0\xD1\xD2\xD3\xD4\xD5\xD6\xD7\xD8\xD9\xDA\xDB\xE0\xE1\xE2\xE3\xE4\xE5\
\xE6\xE7\xE8\xF2";
