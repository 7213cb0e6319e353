//! Laws about what the definitions say.
ghost use Rattle.std.specs.Prelude.{ℕ};
ghost use Rattle.t3_methods.specs.Answers.{Stands};
ghost use Rattle.t3_methods.specs.declared.instr.Instr.TheVariants as of;
ghost use Rattle.t3_methods.specs.declared.instr.PushCode.{PushCode};
ghost use Rattle.t3_methods.specs.declared.instr.MathCode.{MathCode};
ghost use Rattle.t3_methods.specs.declared.instr.CallCode.{CallCode};
ghost use Rattle.t3_methods.specs.declared.instr.StackCode.{StackCode};
ghost use Rattle.t3_methods.specs.declared.instr.JumpCode.{JumpCode};
ghost use Rattle.t3_methods.specs.declared.instr.MakeCode.{MakeCode};
ghost use Rattle.t3_methods.specs.declared.instr.LocalCode.{LocalCode};
ghost use Rattle.t3_load.specs.Loading.{ProgramValue};
ghost use Rattle.t3_frame_instructions.specs.Context.{Context};
ghost use Rattle.t3_frame_instructions.specs.Pushing.{push_action, stack_action};
ghost use Rattle.t3_frame_instructions.specs.Computing.{math_action};
ghost use Rattle.t3_frame_instructions.specs.Jumping.{jump_action};
ghost use Rattle.t3_object_instructions.specs.Instructions.{call_action, make_action, local_action};
ghost use Rattle.t3_good_instructions.specs.Contexts.{IsGoodProgram, IsGoodContext, IsGoodAction};

use t3_snapshot::HolderProperty;

/// Each instruction of a program that is good leaves all that is good, where all that it sees is.
pub fn instructions_stay_good<G: HolderProperty>()
    ensures pushes { (program : ProgramValue) (address size : ℕ)
        (code : PushCode) (context : Context) → IsGoodProgram G.good program
        → Stands program.pools.code address (of.Push code) size → IsGoodContext G.good context
        → IsGoodAction G.good (push_action code context) }
    ensures computes { (program : ProgramValue) (code : MathCode)
        (context : Context) → IsGoodProgram G.good program → IsGoodContext G.good context
        → IsGoodAction G.good (math_action program.pools code context) }
    ensures calls { (program : ProgramValue) (address size : ℕ)
        (code : CallCode) (context : Context) → IsGoodProgram G.good program
        → Stands program.pools.code address (of.Call code) size → IsGoodContext G.good context
        → IsGoodAction G.good (call_action program code context) }
    ensures moves { (program : ProgramValue) (code : StackCode)
        (context : Context) → IsGoodProgram G.good program → IsGoodContext G.good context
        → IsGoodAction G.good (stack_action code context) }
    ensures jumps { (program : ProgramValue) (code : JumpCode)
        (context : Context) → IsGoodProgram G.good program → IsGoodContext G.good context
        → IsGoodAction G.good (jump_action program.pools code context) }
    ensures makes { (program : ProgramValue) (address size : ℕ)
        (code : MakeCode) (context : Context) → IsGoodProgram G.good program
        → Stands program.pools.code address (of.Make code) size → IsGoodContext G.good context
        → IsGoodAction G.good (make_action program code context) }
    ensures sets { (program : ProgramValue) (address size : ℕ)
        (code : LocalCode) (context : Context) → IsGoodProgram G.good program
        → Stands program.pools.code address (of.Local code) size → IsGoodContext G.good context
        → IsGoodAction G.good (local_action program.pools code context) }
{}
