//! What stands behind an opcode.

ghost use Rattle.std.specs.Prelude.{◌≡◌};
ghost use Rattle.opcode_table.specs.Opcodes.{form_of};
ghost use Rattle.opcode_table.specs.Runs.{early_runs, late_runs, run_in};

/// The operands behind an opcode (JVMS 6.5), or why it has none to be read.
#[derive(Clone, Copy, Debug, PartialEq, Eq)]
pub enum OperandForm {
    /// No instruction: a reserved opcode, or a byte that JVMS gives no meaning.
    Unknown,
    /// An instruction that this project leaves out.
    OutOfScope,
    /// No operand.
    Empty,
    /// A signed byte.
    SignedByte,
    /// A signed number of two bytes.
    SignedShort,
    /// An index of the constant pool in one byte.
    PoolByte,
    /// An index of the constant pool in two bytes.
    Pool,
    /// A local in one byte.
    Local,
    /// A local in one byte, and the signed byte that is added to it.
    Increment,
    /// A branch offset of two bytes.
    Jump,
    /// A branch offset of four bytes.
    WideJump,
    /// Padding, default, low, high, and an offset for each number between these.
    Table,
    /// Padding, default, a count, and so many pairs of key and offset.
    Lookup,
    /// An index of the constant pool, a count that is not 0, and a byte 0.
    Interface,
    /// The type of an array's elements, from 4 to 11.
    ArrayType,
    /// An index of the constant pool, and a number of dimensions that is not 0.
    Dimensions,
    /// An opcode with a local, whose numbers are twice as wide.
    Wide,
}

// A family of opcodes in ascending order: the last opcode of each run, and the operands of that run.
macro_rules! through {
    ($op:ident; $($last:literal $form:ident),+ $(,)?) => {
        $(if $op <= $last {
            return OperandForm::$form;
        })+
    };
}

/// What stands behind an opcode.
#[tactic(auto, using(crate::proofs::Runs::form_of_early, crate::proofs::Runs::form_of_late))]
pub fn operand_form(op: u8) -> OperandForm
    ensures { result ≡ form_of op }
{
    if op <= 132 {
        early_form(op)
    } else {
        late_form(op)
    }
}

#[tactic(auto, unfolding(crate::specs::Runs::run_in, crate::specs::Runs::early_runs))]
fn early_form(op: u8) -> OperandForm
    ensures { result ≡ run_in early_runs op }
{
    // Constants.
    through!(op; 10 Empty, 15 OutOfScope, 16 SignedByte, 17 SignedShort, 18 PoolByte, 20 Pool);
    // Loads.
    through!(op; 22 Local, 24 OutOfScope, 25 Local, 33 Empty, 41 OutOfScope, 47 Empty, 49 OutOfScope, 53 Empty);
    // Stores.
    through!(op; 55 Local, 57 OutOfScope, 58 Local, 66 Empty, 74 OutOfScope, 80 Empty, 82 OutOfScope, 86 Empty);
    // The operand stack.
    through!(op; 95 Empty);
    // Arithmetic.
    through!(op; 97 Empty, 99 OutOfScope, 101 Empty, 103 OutOfScope, 105 Empty, 107 OutOfScope, 109 Empty);
    through!(op; 111 OutOfScope, 113 Empty, 115 OutOfScope, 117 Empty, 119 OutOfScope, 131 Empty, 132 Increment);
    OperandForm::Unknown
}

#[tactic(auto, unfolding(crate::specs::Runs::run_in, crate::specs::Runs::late_runs))]
fn late_form(op: u8) -> OperandForm
    ensures { result ≡ run_in late_runs op }
{
    // Conversions.
    through!(op; 133 Empty, 135 OutOfScope, 136 Empty, 144 OutOfScope, 147 Empty);
    // Comparisons.
    through!(op; 148 Empty, 152 OutOfScope, 166 Jump);
    // Control.
    through!(op; 167 Jump, 169 OutOfScope, 170 Table, 171 Lookup, 173 Empty, 175 OutOfScope, 177 Empty);
    // References.
    through!(op; 184 Pool, 185 Interface, 186 OutOfScope, 187 Pool, 188 ArrayType, 189 Pool, 191 Empty, 193 Pool, 195 OutOfScope);
    // Extended.
    through!(op; 196 Wide, 197 Dimensions, 199 Jump, 200 WideJump, 201 OutOfScope);
    OperandForm::Unknown
}
