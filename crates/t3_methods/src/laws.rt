ghost use Rattle.std.specs.Prelude.{◌≡◌, ℕ, map, Result};
ghost use Rattle.t3_pools.specs.Pool.{Pool};
ghost use Rattle.t3_methods.specs.Operands.{kind_of};
ghost use Rattle.t3_methods.specs.InstructionTable.{row_of};
ghost use Rattle.t3_methods.specs.Answers.{Stands, FindsInstr};
ghost use Rattle.t3_methods.specs.MethodHeader.{HasHeader, FindsHeader};
ghost use Rattle.t3_methods.specs.declared.instr.Instr.{Instr as AnyInstr};
ghost use Rattle.t3_methods.specs.declared.header.Header.{Header as AnyHeader};
ghost use Rattle.t3_methods.specs.declared.refusal.CodeRefusal.{CodeRefusal as AnyRefusal};

/// An opcode is one row's of the instruction table: it has one name, which no other has, and operands of
/// certain kinds, and with the operands it is one instruction.
pub fn one_row()
    ensures opcode { (a b : AnyInstr) → (row_of a).name ≡ (row_of b).name
        → (row_of a).opcode ≡ (row_of b).opcode }
    ensures name { (a b : AnyInstr) → (row_of a).opcode ≡ (row_of b).opcode
        → (row_of a).name ≡ (row_of b).name }
    ensures kinds { (a b : AnyInstr) → (row_of a).opcode ≡ (row_of b).opcode
        → map kind_of (row_of a).operands ≡ map kind_of (row_of b).operands }
    ensures instr { (a b : AnyInstr) → (row_of a).opcode ≡ (row_of b).opcode
        → (row_of a).operands ≡ (row_of b).operands → a ≡ b }
{}

/// At one address stands at most one instruction, of one size, and at most one method header.
pub fn one_instruction()
    ensures instr { (code : Pool) (address : ℕ) (a b : AnyInstr) (m n : ℕ)
        → Stands code address a m → Stands code address b n → (a ≡ b) × (m ≡ n) }
    ensures header { (code : Pool) (method : ℕ) (a b : AnyHeader)
        → HasHeader code method a → HasHeader code method b → a ≡ b }
{}

/// Each address gives exactly one answer: one instruction or one cause why none stands there, and one
/// header or none.
pub fn one_answer()
    ensures some_instr { (code : Pool) (address : ℕ)
        → (found : Result (AnyInstr × ℕ) AnyRefusal) × FindsInstr code address found }
    ensures one_instr { (code : Pool) (address : ℕ) (a b : Result (AnyInstr × ℕ) AnyRefusal)
        → FindsInstr code address a → FindsInstr code address b → a ≡ b }
    ensures some_header { (code : Pool) (method : ℕ)
        → (found : Result AnyHeader AnyRefusal) × FindsHeader code method found }
    ensures one_header { (code : Pool) (method : ℕ) (a b : Result AnyHeader AnyRefusal)
        → FindsHeader code method a → FindsHeader code method b → a ≡ b }
{}
