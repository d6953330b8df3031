//! The words from fixed tables, read and written.
ghost use Rattle.std.specs.Prelude.{◌≡◌, ◌≤◌, true, IfSome};
ghost use Rattle.asm.specs.Words.{is_word, operation_word, operation_of, test_word, test_of};
ghost use Rattle.asm.specs.Words.{hook_word, hook_of, load_word, load_of, store_word};
ghost use Rattle.asm.specs.Words.{store_of, reorder_word, reorder_of, register_word};
ghost use Rattle.asm.specs.Words.{register_of, extension_word, extension_of};
ghost use Rattle.isa.specs.Shapes.{extension_width};

use isa::{
    ByteOrder, Extension, Hook, LoadSize, Operation, Register, StoreSize, SwapWidth, Test, Width,
};

/// The operator of an assignment; `=` is a move.
pub fn operation_word(operation: Operation) -> &'static str
    ensures value { result.now ≡ operation_word operation }
    ensures word { is_word result.now ≡ true }
{
    match operation {
        Operation::Add => "+=",
        Operation::Subtract => "-=",
        Operation::Multiply => "*=",
        Operation::Divide => "/=",
        Operation::SignedDivide => "s/=",
        Operation::Or => "|=",
        Operation::And => "&=",
        Operation::ShiftLeft => "<<=",
        Operation::ShiftRight => ">>=",
        Operation::Modulo => "%=",
        Operation::SignedModulo => "s%=",
        Operation::Xor => "^=",
        Operation::Move => "=",
        Operation::ArithmeticShiftRight => "s>>=",
    }
}

/// The operation of an assignment's operator.
pub fn operation_of(word: &str) -> Option<Operation>
    ensures value { result ≡ operation_of word.now }
    ensures found { IfSome result (λ found. word.now ≡ operation_word found) }
{
    match word {
        "+=" => Some(Operation::Add),
        "-=" => Some(Operation::Subtract),
        "*=" => Some(Operation::Multiply),
        "/=" => Some(Operation::Divide),
        "s/=" => Some(Operation::SignedDivide),
        "|=" => Some(Operation::Or),
        "&=" => Some(Operation::And),
        "<<=" => Some(Operation::ShiftLeft),
        ">>=" => Some(Operation::ShiftRight),
        "%=" => Some(Operation::Modulo),
        "s%=" => Some(Operation::SignedModulo),
        "^=" => Some(Operation::Xor),
        "=" => Some(Operation::Move),
        "s>>=" => Some(Operation::ArithmeticShiftRight),
        _ => None,
    }
}

/// The operator of a conditional jump.
pub fn test_word(test: Test) -> &'static str
    ensures value { result.now ≡ test_word test }
    ensures word { is_word result.now ≡ true }
{
    match test {
        Test::Equal => "==",
        Test::Greater => ">",
        Test::GreaterOrEqual => ">=",
        Test::AnyBitSet => "&",
        Test::NotEqual => "!=",
        Test::SignedGreater => "s>",
        Test::SignedGreaterOrEqual => "s>=",
        Test::Less => "<",
        Test::LessOrEqual => "<=",
        Test::SignedLess => "s<",
        Test::SignedLessOrEqual => "s<=",
    }
}

/// The test of a conditional jump's operator.
pub fn test_of(word: &str) -> Option<Test>
    ensures value { result ≡ test_of word.now }
    ensures found { IfSome result (λ found. word.now ≡ test_word found) }
{
    match word {
        "==" => Some(Test::Equal),
        ">" => Some(Test::Greater),
        ">=" => Some(Test::GreaterOrEqual),
        "&" => Some(Test::AnyBitSet),
        "!=" => Some(Test::NotEqual),
        "s>" => Some(Test::SignedGreater),
        "s>=" => Some(Test::SignedGreaterOrEqual),
        "<" => Some(Test::Less),
        "<=" => Some(Test::LessOrEqual),
        "s<" => Some(Test::SignedLess),
        "s<=" => Some(Test::SignedLessOrEqual),
        _ => None,
    }
}

/// A hook's name.
pub fn hook_word(hook: Hook) -> &'static str
    ensures value { result.now ≡ hook_word hook }
    ensures word { is_word result.now ≡ true }
{
    hook.name()
}

/// The hook of this name.
pub fn hook_of(word: &str) -> Option<Hook>
    ensures value { result ≡ hook_of word.now }
    ensures found { IfSome result (λ found. word.now ≡ hook_word found) }
{
    Hook::from_name(word)
}

/// What stands before the address of a load.
pub fn load_word(size: LoadSize) -> &'static str
    ensures value { result.now ≡ load_word size }
    ensures word { is_word result.now ≡ true }
{
    match size {
        LoadSize::Unsigned8 => "*u8",
        LoadSize::Unsigned16 => "*u16",
        LoadSize::Unsigned32 => "*u32",
        LoadSize::Unsigned64 => "*u64",
        LoadSize::Signed8 => "*s8",
        LoadSize::Signed16 => "*s16",
        LoadSize::Signed32 => "*s32",
    }
}

/// What a load reads.
pub fn load_of(word: &str) -> Option<LoadSize>
    ensures value { result ≡ load_of word.now }
    ensures found { IfSome result (λ found. word.now ≡ load_word found) }
{
    match word {
        "*u8" => Some(LoadSize::Unsigned8),
        "*u16" => Some(LoadSize::Unsigned16),
        "*u32" => Some(LoadSize::Unsigned32),
        "*u64" => Some(LoadSize::Unsigned64),
        "*s8" => Some(LoadSize::Signed8),
        "*s16" => Some(LoadSize::Signed16),
        "*s32" => Some(LoadSize::Signed32),
        _ => None,
    }
}

/// What stands before the address of a store.
pub fn store_word(size: StoreSize) -> &'static str
    ensures value { result.now ≡ store_word size }
    ensures word { is_word result.now ≡ true }
{
    match size {
        StoreSize::Bits8 => "*u8",
        StoreSize::Bits16 => "*u16",
        StoreSize::Bits32 => "*u32",
        StoreSize::Bits64 => "*u64",
    }
}

/// What a store writes.
pub fn store_of(word: &str) -> Option<StoreSize>
    ensures value { result ≡ store_of word.now }
    ensures found { IfSome result (λ found. word.now ≡ store_word found) }
{
    match word {
        "*u8" => Some(StoreSize::Bits8),
        "*u16" => Some(StoreSize::Bits16),
        "*u32" => Some(StoreSize::Bits32),
        "*u64" => Some(StoreSize::Bits64),
        _ => None,
    }
}

/// What reorders the bytes of a register.
pub fn reorder_word(order: ByteOrder, width: SwapWidth) -> &'static str
    ensures value { result.now ≡ reorder_word (order, width) }
    ensures word { is_word result.now ≡ true }
{
    match (order, width) {
        (ByteOrder::Little, SwapWidth::Bits16) => "le16",
        (ByteOrder::Little, SwapWidth::Bits32) => "le32",
        (ByteOrder::Little, SwapWidth::Bits64) => "le64",
        (ByteOrder::Big, SwapWidth::Bits16) => "be16",
        (ByteOrder::Big, SwapWidth::Bits32) => "be32",
        (ByteOrder::Big, SwapWidth::Bits64) => "be64",
        (ByteOrder::Swap, SwapWidth::Bits16) => "swap16",
        (ByteOrder::Swap, SwapWidth::Bits32) => "swap32",
        (ByteOrder::Swap, SwapWidth::Bits64) => "swap64",
    }
}

/// The order and the width that the word names.
pub fn reorder_of(word: &str) -> Option<(ByteOrder, SwapWidth)>
    ensures value { result ≡ reorder_of word.now }
    ensures found { IfSome result (λ found. word.now ≡ reorder_word found) }
{
    match word {
        "le16" => Some((ByteOrder::Little, SwapWidth::Bits16)),
        "le32" => Some((ByteOrder::Little, SwapWidth::Bits32)),
        "le64" => Some((ByteOrder::Little, SwapWidth::Bits64)),
        "be16" => Some((ByteOrder::Big, SwapWidth::Bits16)),
        "be32" => Some((ByteOrder::Big, SwapWidth::Bits32)),
        "be64" => Some((ByteOrder::Big, SwapWidth::Bits64)),
        "swap16" => Some((ByteOrder::Swap, SwapWidth::Bits16)),
        "swap32" => Some((ByteOrder::Swap, SwapWidth::Bits32)),
        "swap64" => Some((ByteOrder::Swap, SwapWidth::Bits64)),
        _ => None,
    }
}

/// A register's name: `r` for all of its bits, `w` for the low 32.
pub fn register_word(width: Width, register: Register) -> &'static str
    ensures value { result.now ≡ register_word (width, register) }
    ensures word { is_word result.now ≡ true }
{
    match (width, register.index()) {
        (Width::Bits64, 0) => "r0",
        (Width::Bits64, 1) => "r1",
        (Width::Bits64, 2) => "r2",
        (Width::Bits64, 3) => "r3",
        (Width::Bits64, 4) => "r4",
        (Width::Bits64, 5) => "r5",
        (Width::Bits64, 6) => "r6",
        (Width::Bits64, 7) => "r7",
        (Width::Bits64, 8) => "r8",
        (Width::Bits64, 9) => "r9",
        (Width::Bits64, _) => "r10",
        (Width::Bits32, 0) => "w0",
        (Width::Bits32, 1) => "w1",
        (Width::Bits32, 2) => "w2",
        (Width::Bits32, 3) => "w3",
        (Width::Bits32, 4) => "w4",
        (Width::Bits32, 5) => "w5",
        (Width::Bits32, 6) => "w6",
        (Width::Bits32, 7) => "w7",
        (Width::Bits32, 8) => "w8",
        (Width::Bits32, 9) => "w9",
        (Width::Bits32, _) => "w10",
    }
}

/// The width and the number of a register's name.
fn register_number(word: &str) -> Option<(Width, u8)>
    ensures value { result ≡ register_of word.now }
    ensures found { IfSome result (λ found. (word.now ≡ register_word found) × (found.1 ≤ 10)) }
{
    match word {
        "r0" => Some((Width::Bits64, 0)),
        "r1" => Some((Width::Bits64, 1)),
        "r2" => Some((Width::Bits64, 2)),
        "r3" => Some((Width::Bits64, 3)),
        "r4" => Some((Width::Bits64, 4)),
        "r5" => Some((Width::Bits64, 5)),
        "r6" => Some((Width::Bits64, 6)),
        "r7" => Some((Width::Bits64, 7)),
        "r8" => Some((Width::Bits64, 8)),
        "r9" => Some((Width::Bits64, 9)),
        "r10" => Some((Width::Bits64, 10)),
        "w0" => Some((Width::Bits32, 0)),
        "w1" => Some((Width::Bits32, 1)),
        "w2" => Some((Width::Bits32, 2)),
        "w3" => Some((Width::Bits32, 3)),
        "w4" => Some((Width::Bits32, 4)),
        "w5" => Some((Width::Bits32, 5)),
        "w6" => Some((Width::Bits32, 6)),
        "w7" => Some((Width::Bits32, 7)),
        "w8" => Some((Width::Bits32, 8)),
        "w9" => Some((Width::Bits32, 9)),
        "w10" => Some((Width::Bits32, 10)),
        _ => None,
    }
}

/// The register that the word names, and its width.
pub fn register_of(word: &str) -> Option<(Width, Register)>
    ensures value { result ≡ register_of word.now }
    ensures found { IfSome result (λ found. (word.now ≡ register_word found) × (found.1 ≤ 10)) }
{
    let (width, number) = register_number(word)?;
    match Register::new(number) {
        Some(register) => Some((width, register)),
        None => None,
    }
}

/// The keyword of a sign-extending move.
pub fn extension_word(extension: Extension) -> &'static str
    ensures value { result.now ≡ extension_word extension }
    ensures word { is_word result.now ≡ true }
{
    match extension {
        Extension::Byte(_) => "s8",
        Extension::Half(_) => "s16",
        Extension::Word => "s32",
    }
}

/// The sign-extending move that the word names, between registers of this width.
pub fn extension_of(width: Width, word: &str) -> Option<Extension>
    ensures value { result ≡ extension_of width word.now }
    ensures found { IfSome result (λ found. (word.now ≡ extension_word found)
        × (width ≡ extension_width found)) }
{
    match word {
        "s8" => Some(Extension::Byte(width)),
        "s16" => Some(Extension::Half(width)),
        "s32" => match width {
            Width::Bits64 => Some(Extension::Word),
            Width::Bits32 => None,
        },
        _ => None,
    }
}
