//! Texts of assembly, and the object files that they spell.

ghost use Rattle.std.specs.Prelude.{◌≡◌, ◌++◌, ◌⊎◌, [], ◌∷◌, List, ℕ, false, codes, decimal, IfOk};
ghost use Rattle.std.specs.Prelude.{IfErr, string_bytes};
ghost use Rattle.asm.specs.Assembling.{TextSpells};
ghost use Rattle.object.specs.Objects.{slots_of};
ghost use Rattle.object.specs.Spelling.{Spells};
ghost use Rattle.commands.specs.Assembly.{IsAssembled, IsObjectFault, IsListing, IsTextFault};

use crate::fault::CommandError;
use crate::files;
use crate::report::CommandOutput;
use asm::{ListError, assemble, listing};
use isa::decode;
use object::Object;
use std::alloc::{AllocError, Global};
use std::rt::Files;

/// An object, and the bytes of its file.
#[derive(Drop)]
struct ObjectFile {
    object: Object,
    bytes: Vec<u8>,
}

/// The object file that a text spells.
fn object_file<'a>(alloc: Global, text: &str) -> Result<ObjectFile, CommandError<'a>>
    ensures text { IfOk result (λ file. TextSpells text.now file.object) }
    ensures bytes { IfOk result (λ file. Spells file.bytes.items file.object) }
    ensures fault { IfErr result (IsTextFault text.now) }
{
    let object = assemble(alloc, text)?;
    let bytes = object::write(alloc, &object)?;
    Ok(ObjectFile { object, bytes })
}

/// Makes the file at `target` this object file.
fn write_object<'a, R: Files + AllocGlobal>(
    rt: &R,
    target: &'a str,
    file: &ObjectFile,
) -> Result<(), CommandError<'a>>
    requires { Spells file.now.bytes.items file.now.object }
    ensures { IfErr result (λ fault. (fault ≡ CommandError.Write target.entry)
        ⊎ (fault ≡ CommandError.Memory)) }
{
    files::write(rt, target, file.bytes.as_slice())
}

/// What is told of an object file that was written: how many slots its code has.
fn report_written(alloc: Global, file: &ObjectFile) -> Result<CommandOutput, AllocError>
    ensures text { IfOk result (λ report. string_bytes report.text ≡ codes "ok "
        ++ decimal (slots_of file.now.object) ++ 10 ∷ []) }
    ensures done { IfOk result (λ report. report.is_refused ≡ false) }
{
    let slots = file.object.slots();
    Ok(CommandOutput {
        text: format!(in alloc; "ok {slots}\n")?,
        is_refused: false,
    })
}

/// Assembles the text of the file at `source` into the object file `target`, and reports how many
/// slots the code has.
///
/// # Errors
/// `Read` if the source can't be read or is no text, `Source` if it spells no object, `Write` if
/// the target can't be written, `Memory` if an allocation is refused.
pub fn assemble_file<'a, R: Files + AllocGlobal>(
    rt: &R,
    source: &'a str,
    target: &'a str,
) -> Result<CommandOutput, CommandError<'a>>
    // If it is done, the text of the source spells an object.
    ensures done { IfOk result (λ report. (text : List ℕ) × IsAssembled text report) }
    ensures fault { IfErr result (λ fault. (fault ≡ CommandError.Read source.entry)
        ⊎ (fault ≡ CommandError.Write target.entry) ⊎ ((text : List ℕ) × IsTextFault text fault)) }
{
    let alloc = rt.alloc();
    let text = files::read_text(rt, source)?;
    let file = object_file(alloc, text.as_str())?;
    let report = report_written(alloc, &file)?;
    write_object(rt, target, &file)?;
    Ok(report)
}

/// The listing of the object file that these bytes are.
fn report_listing<'a>(alloc: Global, bytes: &[u8]) -> Result<CommandOutput, CommandError<'a>>
    ensures listed { IfOk result (IsListing bytes.now) }
    ensures fault { IfErr result (IsObjectFault bytes.now) }
{
    let object = object::read(alloc, bytes)?;
    match listing(alloc, &object) {
        Ok(text) => Ok(CommandOutput {
            text,
            is_refused: false,
        }),
        Err(ListError::Memory) => Err(CommandError::Memory),
        Err(ListError::Code) => match decode(alloc, object.code()) {
            Ok(_) => unreachable!(),
            Err(error) => Err(CommandError::from(error)),
        },
    }
}

/// The listing of the object file at `path`.
///
/// # Errors
/// `Read` if the file can't be read, `Object` if it is no object file, `Code` if it holds no code,
/// `Memory` if an allocation is refused.
pub fn list<'a, R: Files + AllocGlobal>(
    rt: &R,
    path: &'a str,
) -> Result<CommandOutput, CommandError<'a>>
    ensures listed { IfOk result (λ report. (bytes : List ℕ) × IsListing bytes report) }
    ensures fault { IfErr result (λ fault. (fault ≡ CommandError.Read path.entry)
        ⊎ ((bytes : List ℕ) × IsObjectFault bytes fault)) }
{
    let bytes = files::read(rt, path)?;
    report_listing(rt.alloc(), bytes.as_slice())
}
