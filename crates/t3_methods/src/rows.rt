//! The instruction table as code: a row for each opcode.
ghost use Rattle.std.specs.Prelude.{◌≡◌, ◌<◌, ◌^◌, ◌&&◌, nat_lt};
ghost use Rattle.t3_methods.specs.Inner.Rows.{FindsRow};
ghost use Rattle.t3_methods.specs.InstructionTable.{push_row, math_row, call_row, stack_row};
ghost use Rattle.t3_methods.specs.InstructionTable.{jump_row, make_row, local_row, row_of};

use crate::decoded::Slot::{self, ArgumentSlot, LocalSlot, NoSlot};
use crate::instr::{CallCode, Instr, JumpCode, LocalCode, MakeCode, MathCode, PushCode, StackCode};
use crate::kind::Kind::{self, Cases, Int4, Jump, Object, Property, Sbyte, Ubyte, Uint2, Uint4};
use crate::window::Window;

/// A row of the instruction table, its operands read.
#[derive(Drop)]
pub(crate) struct TableRow<Code> {
    pub(crate) code: Code,
    pub(crate) name: &'static str,
    pub(crate) kinds: &'static [Kind],
    /// Where the numbers of the operands end, from the opcode on.
    pub(crate) end: u32,
    /// Whether no property and no object among the operands has the number 0.
    pub(crate) is_named: bool,
    /// Whether the last operand is cases, which stand behind its number.
    pub(crate) has_cases: bool,
    pub(crate) takes: u32,
    pub(crate) slot: Slot,
}

/// A row: the name, the operands by their kinds and the names that they have in what follows, the
/// instruction, how many values it takes off the stack or looks at there, and the local or argument
/// that it names, if it names one.
///
/// The operands are read one behind the other: `$at` is where the next one stands, `$named` whether
/// those in front of it are named, and `$cases` whether they are cases.
macro_rules! row {
    ($name:literal [] $code:expr, $takes:expr) => {
        row!(@read none, 1, true, false, [] { $name [] $code, $takes, NoSlot })
    };
    ($name:literal [$($kind:ident $value:ident),*] in $window:ident, $code:expr, $takes:expr) => {
        row!($name [$($kind $value),*] in $window, $code, $takes, NoSlot)
    };
    (
        $name:literal [$($kind:ident $value:ident),*] in $window:ident, $code:expr, $takes:expr,
        $slot:expr
    ) => {
        row!(@read $window, 1, true, false, [$($kind $value)*]
            { $name [$($kind)*] $code, $takes, $slot })
    };
    (@read $window:ident, $at:expr, $named:expr, $cases:tt,
        [Ubyte $value:ident $($rest:tt)*] $row:tt) => {{
        let $value = $window.ubyte($at);
        row!(@read $window, $at + 1, $named, $cases, [$($rest)*] $row)
    }};
    (@read $window:ident, $at:expr, $named:expr, $cases:tt,
        [Sbyte $value:ident $($rest:tt)*] $row:tt) => {{
        let $value = $window.sbyte($at);
        row!(@read $window, $at + 1, $named, $cases, [$($rest)*] $row)
    }};
    (@read $window:ident, $at:expr, $named:expr, $cases:tt,
        [Uint2 $value:ident $($rest:tt)*] $row:tt) => {{
        let $value = $window.uint2($at);
        row!(@read $window, $at + 2, $named, $cases, [$($rest)*] $row)
    }};
    (@read $window:ident, $at:expr, $named:expr, $cases:tt,
        [Jump $value:ident $($rest:tt)*] $row:tt) => {{
        let $value = $window.int2($at);
        row!(@read $window, $at + 2, $named, $cases, [$($rest)*] $row)
    }};
    (@read $window:ident, $at:expr, $named:expr, $cases:tt,
        [Uint4 $value:ident $($rest:tt)*] $row:tt) => {{
        let $value = $window.uint4($at);
        row!(@read $window, $at + 4, $named, $cases, [$($rest)*] $row)
    }};
    (@read $window:ident, $at:expr, $named:expr, $cases:tt,
        [Int4 $value:ident $($rest:tt)*] $row:tt) => {{
        let $value = $window.int4($at);
        row!(@read $window, $at + 4, $named, $cases, [$($rest)*] $row)
    }};
    (@read $window:ident, $at:expr, $named:expr, $cases:tt,
        [Property $value:ident $($rest:tt)*] $row:tt) => {{
        let $value = $window.uint2($at);
        row!(@read $window, $at + 2, named_too($named, u32::from($value)), $cases, [$($rest)*] $row)
    }};
    (@read $window:ident, $at:expr, $named:expr, $cases:tt,
        [Object $value:ident $($rest:tt)*] $row:tt) => {{
        let $value = $window.uint4($at);
        row!(@read $window, $at + 4, named_too($named, $value), $cases, [$($rest)*] $row)
    }};
    (@read $window:ident, $at:expr, $named:expr, $cases:tt,
        [Cases $value:ident $($rest:tt)*] $row:tt) => {{
        let $value = $window.uint2($at);
        row!(@read $window, $at + 2, $named, true, [$($rest)*] $row)
    }};
    (
        @read $window:ident, $end:expr, $named:expr, $cases:tt, []
        { $name:literal [$($kind:ident)*] $code:expr, $takes:expr, $slot:expr }
    ) => {
        Some(TableRow {
            code: $code,
            name: $name,
            kinds: &[$($kind),*],
            end: $end,
            is_named: $named,
            has_cases: $cases,
            takes: $takes,
            slot: $slot,
        })
    };
}

/// Whether the operands in front are named, and a property or an object of this number too.
#[inline(always)]
fn named_too(named: bool, number: u32) -> bool
    ensures { result ≡ (named && nat_lt 0 number) }
{
    named && number != 0
}

#[inline(always)]
fn push_code(opcode: u8, window: &Window) -> Option<TableRow<PushCode>>
    ensures { FindsRow push_row opcode window.now result }
{
    use PushCode::*;
    match opcode {
        0x01 => row!("push_0" [] Push0, 0),
        0x02 => row!("push_1" [] Push1, 0),
        0x03 => row!("pushint8" [Sbyte number] in window, Pushint8(number), 0),
        0x04 => row!("pushint" [Int4 number] in window, Pushint(number), 0),
        0x05 => row!("pushstr" [Uint4 address] in window, Pushstr(address), 0),
        0x06 => row!("pushlst" [Uint4 address] in window, Pushlst(address), 0),
        0x07 => row!("pushobj" [Object object] in window, Pushobj(object), 0),
        0x08 => row!("pushnil" [] Pushnil, 0),
        0x09 => row!("pushtrue" [] Pushtrue, 0),
        0x0A => row!("pushpropid" [Property property] in window, Pushpropid(property), 0),
        0x0B => row!("pushfnptr" [Uint4 function] in window, Pushfnptr(function), 0),
        0x0F => row!("pushenum" [Uint4 number] in window, Pushenum(number), 0),
        _ => None,
    }
}

#[inline(always)]
fn math_code(opcode: u8, window: &Window) -> Option<TableRow<MathCode>>
    ensures { FindsRow math_row opcode window.now result }
{
    use MathCode::*;
    match opcode {
        0x20 => row!("neg" [] Neg, 1),
        0x21 => row!("bnot" [] Bnot, 1),
        0x22 => row!("add" [] Add, 2),
        0x23 => row!("sub" [] Sub, 2),
        0x24 => row!("mul" [] Mul, 2),
        0x25 => row!("band" [] Band, 2),
        0x26 => row!("bor" [] Bor, 2),
        0x27 => row!("shl" [] Shl, 2),
        0x28 => row!("ashr" [] Ashr, 2),
        0x29 => row!("xor" [] Xor, 2),
        0x2A => row!("div" [] Div, 2),
        0x2B => row!("mod" [] Mod, 2),
        0x2C => row!("not" [] Not, 1),
        0x2D => row!("boolize" [] Boolize, 1),
        0x2E => row!("inc" [] Inc, 1),
        0x2F => row!("dec" [] Dec, 1),
        0x30 => row!("lshr" [] Lshr, 2),
        0x40 => row!("eq" [] Eq, 2),
        0x41 => row!("ne" [] Ne, 2),
        0x42 => row!("lt" [] Lt, 2),
        0x43 => row!("le" [] Le, 2),
        0x44 => row!("gt" [] Gt, 2),
        0x45 => row!("ge" [] Ge, 2),
        _ => None,
    }
}

#[inline(always)]
fn call_code(opcode: u8, window: &Window) -> Option<TableRow<CallCode>>
    ensures { FindsRow call_row opcode window.now result }
{
    use CallCode::*;
    match opcode {
        0x50 => row!("retval" [] Retval, 1),
        0x51 => row!("retnil" [] Retnil, 0),
        0x52 => row!("rettrue" [] Rettrue, 0),
        0x54 => row!("ret" [] Ret, 0),
        0x58 => row!("call" [Ubyte count, Uint4 function] in window,
            Call(count, function), u32::from(count)),
        0x59 => row!("ptrcall" [Ubyte count] in window, Ptrcall(count), u32::from(count) + 1),
        0x60 => row!("getprop" [Property property] in window, Getprop(property), 1),
        0x61 => row!("callprop" [Ubyte count, Property property] in window,
            Callprop(count, property), u32::from(count) + 1),
        0x62 => row!("ptrcallprop" [Ubyte count] in window,
            Ptrcallprop(count), u32::from(count) + 2),
        0x63 => row!("getpropself" [Property property] in window, Getpropself(property), 0),
        0x64 => row!("callpropself" [Ubyte count, Property property] in window,
            Callpropself(count, property), u32::from(count)),
        0x65 => row!("ptrcallpropself" [Ubyte count] in window,
            Ptrcallpropself(count), u32::from(count) + 1),
        0x66 => row!("objgetprop" [Object object, Property property] in window,
            Objgetprop(object, property), 0),
        0x67 => row!("objcallprop" [Ubyte count, Object object, Property property] in window,
            Objcallprop(count, object, property), u32::from(count)),
        0x72 => row!("inherit" [Ubyte count, Property property] in window,
            Inherit(count, property), u32::from(count)),
        0x74 => row!("expinherit" [Ubyte count, Property property, Object object] in window,
            Expinherit(count, property, object), u32::from(count)),
        0x77 => row!("delegate" [Ubyte count, Property property] in window,
            Delegate(count, property), u32::from(count) + 1),
        _ => None,
    }
}

#[inline(always)]
fn stack_code(opcode: u8, window: &Window) -> Option<TableRow<StackCode>>
    ensures { FindsRow stack_row opcode window.now result }
{
    use StackCode::*;
    match opcode {
        0x80 => row!("getlcl1" [Ubyte local] in window,
            Getlcl1(local), 0, LocalSlot(u16::from(local))),
        0x81 => row!("getlcl2" [Uint2 local] in window, Getlcl2(local), 0, LocalSlot(local)),
        0x82 => row!("getarg1" [Ubyte argument] in window,
            Getarg1(argument), 0, ArgumentSlot(u16::from(argument))),
        0x83 => row!("getarg2" [Uint2 argument] in window,
            Getarg2(argument), 0, ArgumentSlot(argument)),
        0x84 => row!("pushself" [] Pushself, 0),
        0x87 => row!("getargc" [] Getargc, 0),
        0x88 => row!("dup" [] Dup, 1),
        0x89 => row!("disc" [] Disc, 1),
        0x8A => row!("disc1" [Ubyte count] in window, Disc1(count), u32::from(count)),
        0x8B => row!("getr0" [] Getr0, 0),
        0x8D => row!("swap" [] Swap, 2),
        _ => None,
    }
}

#[inline(always)]
fn jump_code(opcode: u8, window: &Window) -> Option<TableRow<JumpCode>>
    requires { window.now.address < 2 ^ 31 }
    ensures { FindsRow jump_row opcode window.now result }
{
    use JumpCode::*;
    match opcode {
        0x90 => row!("switch" [Cases count] in window, Switch { count, at: window.address + 3 }, 1),
        0x91 => row!("jmp" [Jump distance] in window, Jmp(distance), 0),
        0x92 => row!("jt" [Jump distance] in window, Jt(distance), 1),
        0x93 => row!("jf" [Jump distance] in window, Jf(distance), 1),
        0x94 => row!("je" [Jump distance] in window, Je(distance), 2),
        0x95 => row!("jne" [Jump distance] in window, Jne(distance), 2),
        0x96 => row!("jgt" [Jump distance] in window, Jgt(distance), 2),
        0x97 => row!("jge" [Jump distance] in window, Jge(distance), 2),
        0x98 => row!("jlt" [Jump distance] in window, Jlt(distance), 2),
        0x99 => row!("jle" [Jump distance] in window, Jle(distance), 2),
        0x9A => row!("jst" [Jump distance] in window, Jst(distance), 1),
        0x9B => row!("jsf" [Jump distance] in window, Jsf(distance), 1),
        0x9C => row!("ljsr" [Jump distance] in window, Ljsr(distance), 0),
        0x9D => row!("lret" [Uint2 local] in window, Lret(local), 0, LocalSlot(local)),
        _ => None,
    }
}

#[inline(always)]
fn make_code(opcode: u8, window: &Window) -> Option<TableRow<MakeCode>>
    ensures { FindsRow make_row opcode window.now result }
{
    use MakeCode::*;
    match opcode {
        0xB0 => row!("say" [Uint4 address] in window, Say(address), 0),
        0xB1 => row!("builtin_a" [Ubyte count, Ubyte index] in window,
            Builtina(count, index), u32::from(count)),
        0xB2 => row!("builtin_b" [Ubyte count, Ubyte index] in window,
            Builtinb(count, index), u32::from(count)),
        0xB3 => row!("builtin_c" [Ubyte count, Ubyte index] in window,
            Builtinc(count, index), u32::from(count)),
        0xB4 => row!("builtin_d" [Ubyte count, Ubyte index] in window,
            Builtind(count, index), u32::from(count)),
        0xB5 => row!("builtin1" [Ubyte count, Ubyte index, Ubyte set] in window,
            Builtin1(count, index, set), u32::from(count)),
        0xB8 => row!("throw" [] Throw, 1),
        0xB9 => row!("sayval" [] Sayval, 1),
        0xBA => row!("index" [] Index, 2),
        0xC0 => row!("new1" [Ubyte count, Ubyte index] in window,
            New1(count, index), u32::from(count)),
        0xC1 => row!("new2" [Uint2 count, Uint2 index] in window,
            New2(count, index), u32::from(count)),
        0xC2 => row!("trnew1" [Ubyte count, Ubyte index] in window,
            Trnew1(count, index), u32::from(count)),
        0xC3 => row!("trnew2" [Uint2 count, Uint2 index] in window,
            Trnew2(count, index), u32::from(count)),
        _ => None,
    }
}

#[inline(always)]
fn local_code(opcode: u8, window: &Window) -> Option<TableRow<LocalCode>>
    ensures { FindsRow local_row opcode window.now result }
{
    use LocalCode::*;
    match opcode {
        0xD0 => row!("inclcl" [Uint2 local] in window, Inclcl(local), 0, LocalSlot(local)),
        0xD1 => row!("declcl" [Uint2 local] in window, Declcl(local), 0, LocalSlot(local)),
        0xD2 => row!("addilcl1" [Ubyte local, Sbyte number] in window,
            Addilcl1(local, number), 0, LocalSlot(u16::from(local))),
        0xD3 => row!("addilcl4" [Uint2 local, Int4 number] in window,
            Addilcl4(local, number), 0, LocalSlot(local)),
        0xD4 => row!("addtolcl" [Uint2 local] in window, Addtolcl(local), 1, LocalSlot(local)),
        0xD5 => row!("subfromlcl" [Uint2 local] in window, Subfromlcl(local), 1, LocalSlot(local)),
        0xD6 => row!("zerolcl1" [Ubyte local] in window,
            Zerolcl1(local), 0, LocalSlot(u16::from(local))),
        0xD7 => row!("zerolcl2" [Uint2 local] in window, Zerolcl2(local), 0, LocalSlot(local)),
        0xD8 => row!("nillcl1" [Ubyte local] in window,
            Nillcl1(local), 0, LocalSlot(u16::from(local))),
        0xD9 => row!("nillcl2" [Uint2 local] in window, Nillcl2(local), 0, LocalSlot(local)),
        0xDA => row!("onelcl1" [Ubyte local] in window,
            Onelcl1(local), 0, LocalSlot(u16::from(local))),
        0xDB => row!("onelcl2" [Uint2 local] in window, Onelcl2(local), 0, LocalSlot(local)),
        0xE0 => row!("setlcl1" [Ubyte local] in window,
            Setlcl1(local), 1, LocalSlot(u16::from(local))),
        0xE1 => row!("setlcl2" [Uint2 local] in window, Setlcl2(local), 1, LocalSlot(local)),
        0xE2 => row!("setarg1" [Ubyte argument] in window,
            Setarg1(argument), 1, ArgumentSlot(u16::from(argument))),
        0xE3 => row!("setarg2" [Uint2 argument] in window,
            Setarg2(argument), 1, ArgumentSlot(argument)),
        0xE4 => row!("setind" [] Setind, 3),
        0xE5 => row!("setprop" [Property property] in window, Setprop(property), 2),
        0xE6 => row!("ptrsetprop" [] Ptrsetprop, 3),
        0xE7 => row!("setpropself" [Property property] in window, Setpropself(property), 1),
        0xE8 => row!("objsetprop" [Object object, Property property] in window,
            Objsetprop(object, property), 1),
        0xF2 => row!("nop" [] Nop, 0),
        _ => None,
    }
}

/// A row that was found for one of the seven kinds of instructions is the row of the whole table.
macro_rules! among {
    ($found:expr, $kind:path) => {
        if let Some(row) = $found {
            return Some(TableRow {
                code: $kind(row.code),
                name: row.name,
                kinds: row.kinds,
                end: row.end,
                is_named: row.is_named,
                has_cases: row.has_cases,
                takes: row.takes,
                slot: row.slot,
            });
        }
    };
}

/// The row of an opcode, its operands as the window says them. `None` where no row has the opcode.
///
/// A function of this size becomes part of its caller only where it has no other, so there are two:
/// the hot one has one caller, which a step of a machine goes through.
pub(crate) fn row_at<const HOT: bool>(opcode: u8, window: &Window) -> Option<TableRow<Instr>>
    requires { window.now.address < 2 ^ 31 }
    ensures { FindsRow row_of opcode window.now result }
{
    // One behind the other, so that one table of jumps serves for all seven.
    among!(push_code(opcode, window), Instr::Push);
    among!(math_code(opcode, window), Instr::Math);
    among!(call_code(opcode, window), Instr::Call);
    among!(stack_code(opcode, window), Instr::Stack);
    among!(jump_code(opcode, window), Instr::Jump);
    among!(make_code(opcode, window), Instr::Make);
    among!(local_code(opcode, window), Instr::Local);
    None
}
