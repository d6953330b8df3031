//! `build`: an object for each function that clang compiled for a hook. `explain`: what the
//! verifier knows of each.

ghost use Rattle.std.specs.Prelude.{◌≡◌, ◌⊎◌, ◌++◌, ◌||◌, ◌<◌, Err, false, true, Some, IfErr};
ghost use Rattle.std.specs.Prelude.{IfNone, IfOk, IfSome, OnOk, length, string_bytes};
ghost use Rattle.std.specs.List.{All};
ghost use Rattle.isa.specs.Hooks.{hook_name};
ghost use Rattle.verifier.specs.Verdicts.{Accepts};
ghost use Rattle.verifier.specs.Programs.{Program};
ghost use Rattle.elf.specs.Files.{section_count, section_name};
ghost use Rattle.elf.specs.Lists.{functions_of, relocations_of, symbol_bytes, symbol_name};
ghost use Rattle.hooktool.specs.Builds.{AreBuiltFunctions, AreBuiltSections, IsBuilt};
ghost use Rattle.hooktool.specs.Builds.{IsBuiltAt, IsBuiltFunction, IsBuiltSection};
ghost use Rattle.hooktool.specs.Builds.{HasNoProgram, HasProgram, IsForNoHook, IsHookOf};
ghost use Rattle.hooktool.specs.Builds.{built_text, is_file_name, is_program_section};
ghost use Rattle.hooktool.specs.Builds.{object_path};
ghost use Rattle.hooktool.specs.Explanations.{IsExplained};
ghost use Rattle.hooktool.specs.Faults.{IsBuildFault, IsUnplaced};
ghost use Rattle.hooktool.specs.Linked.{is_changed};
ghost use Rattle.hooktool.specs.Orders.{IsBuiltCode, IsHandedOut, IsJoined, wanted_of};

use crate::annotating::{Telling, accepted_text, fuel_for, shortfall};
use crate::explaining::explanation_of;
use crate::fault::HooktoolFault;
use crate::files;
use crate::names::{as_file_name, shown};
use crate::relocated::{Section, relocation_report, unchanged};
use crate::report::{CommandReport, refusal, told};
use annotations::{AnnotatedObject, Shortfall, annotate_file};
use elf::{LinkedRelocation, LinkedSymbol, ObjectFile};
use explanations::Text;
use hooktool_trials::{FuelAsked, WholeFiles};
use isa::Hook;
use std::alloc::{AllocError, Global};

/// What is made of each function.
#[derive(Clone, Copy)]
pub(crate) enum Purpose<'a> {
    /// An object in this folder.
    Object { folder: &'a str },
    /// An explanation.
    Explanation,
}

/// What is made of each function, the hook of functions in `.text`, and the turns of loops.
#[derive(Clone, Copy)]
pub(crate) struct Order<'a> {
    pub purpose: Purpose<'a>,
    pub hook: Option<Hook>,
    pub fuel: FuelAsked,
}

/// A function's name, and that of its section.
#[derive(Clone, Copy)]
struct Names<'f> {
    section: &'f [u8],
    function: &'f [u8],
}

/// Adds the rest of a report.
fn join(report: &mut CommandReport, more: &CommandReport) -> Result<(), AllocError>
    ensures text { OnOk result (string_bytes report.new.text
        ≡ string_bytes report.old.text ++ string_bytes more.now.text) }
    ensures refused { OnOk result (report.new.is_refused
        ≡ (report.old.is_refused || more.now.is_refused)) }
{
    report.text.push_str(more.text.as_str())?;
    report.is_refused = report.is_refused || more.is_refused;
    Ok(())
}

/// The report with the rest after it, or the fault of that.
fn added<'a>(
    mut report: CommandReport,
    more: Result<CommandReport, HooktoolFault<'a>>,
) -> Result<CommandReport, HooktoolFault<'a>>
    ensures joined { IfOk result (IsJoined report more.entry) }
    ensures fault { IfErr result (λ fault. (fault ≡ HooktoolFault.Memory)
        ⊎ (more.entry ≡ Err fault)) }
{
    match more {
        Ok(more) => {
            join(&mut report, &more)?;
            Ok(report)
        }
        Err(fault) => Err(fault),
    }
}

/// Adds the beginning of a line about a function.
pub(crate) fn push_about(text: &mut Text, section: &[u8], function: &[u8]) {
    text.push("section ");
    text.push(shown(section));
    text.push(", function ");
    text.push(shown(function));
}

/// The beginning of a line about a function.
fn about(alloc: Global, section: &[u8], function: &[u8]) -> Text {
    let mut text = Text::new(alloc);
    push_about(&mut text, section, function);
    text
}

/// The hook of the functions of a section: the one that it is named by, or for `.text` the given
/// one.
#[tactic(auto, using(crate::proofs::Hooked::unasked, crate::proofs::Hooked::unnamed))]
fn hook_of(given: Option<Hook>, section: &str) -> Option<Hook>
    ensures some { IfSome result (IsHookOf given section.now) }
    ensures none { IfNone result (IsForNoHook given section.now) }
{
    if section == ".text" {
        return given;
    }
    Hook::from_name(section)
}

/// The hook of the functions of a section with this name, which may be any bytes.
fn hook_in(given: Option<Hook>, section: &[u8]) -> Option<Hook>
    ensures some { IfSome result (IsHookOf given section.now) }
    ensures none { IfNone result (IsForNoHook given section.now) }
{
    match str::from_utf8(section) {
        Ok(name) => hook_of(given, name),
        Err(_) => None,
    }
}

/// Why bytes are no code, by the number of the refusal.
fn code_words(number: u8) -> &'static str {
    match number {
        1 => ": it is not of whole instructions\n",
        2 => ": an instruction that the machine doesn't have, as those of __sync_ and atomic \
                functions\n",
        4 => ": an instruction that the machine doesn't have, as a call of a function of the file: \
                make that function static inline\n",
        5 => ": it ends inside an instruction of two slots\n",
        6 => ": it is longer than 4096 slots\n",
        _ => ": an instruction that the machine doesn't have\n",
    }
}

/// The report on a function for which no object is made.
fn function_told<'a>(
    alloc: Global,
    section: &[u8],
    function: &[u8],
    why: &str,
) -> Result<CommandReport, HooktoolFault<'a>>
    ensures refused { IfOk result (λ report. report.is_refused ≡ true) }
    ensures fault { IfErr result (λ fault. fault ≡ HooktoolFault.Memory) }
{
    let mut text = about(alloc, section, function);
    text.push(why);
    refusal(text)
}

/// Adds why nothing was accepted of a function: its bytes are no code, or no code whose turns can
/// be counted, or what the verifier refuses.
fn push_why(text: &mut Text, why: &Result<CommandReport, HooktoolFault<'_>>) {
    match why {
        Ok(told) => {
            text.push(": not accepted\n");
            text.push(told.text.as_str());
        }
        Err(HooktoolFault::Code { number, slot }) => {
            text.numbered(", slot ", *slot, code_words(*number));
        }
        Err(HooktoolFault::Uncounted { reason }) => text.line(": ", reason),
        Err(_) => text.push(": it is no code\n"),
    }
}

/// The report on a function for which nothing was accepted.
fn function_refusal<'a>(
    alloc: Global,
    names: Names<'_>,
    why: Result<CommandReport, HooktoolFault<'a>>,
) -> Result<CommandReport, HooktoolFault<'a>>
    ensures refused { IfOk result (λ report. report.is_refused ≡ true) }
    ensures fault { IfErr result (λ fault. fault ≡ HooktoolFault.Memory) }
{
    if matches!(why, Err(HooktoolFault::Memory)) {
        return Err(HooktoolFault::Memory);
    }
    let mut text = about(alloc, names.section, names.function);
    push_why(&mut text, &why);
    refusal(text)
}

/// The report on an object that is written.
fn line_of(
    alloc: Global,
    folder: &str,
    function: &str,
    hook: &str,
    found: &AnnotatedObject,
) -> Result<String, AllocError>
    ensures { IfOk result (λ line. string_bytes line ≡ built_text folder.now function.now hook.now
        found.now.annotated.accepted found.now.turns) }
{
    let accepted = accepted_text(alloc, found)?;
    let line = format!(in alloc; "{folder}/{function}.o: {hook}, {accepted}")?;
    Ok(line)
}

/// Writes these bytes as the object of a function.
fn write_object<'a, R: WholeFiles + AllocGlobal>(
    rt: &R,
    folder: &'a str,
    function: &str,
    bytes: &[u8],
) -> Result<(), HooktoolFault<'a>>
    requires accepted { (program : Program) × Accepts bytes.now program }
    // The object is in the folder itself.
    requires plain { is_file_name function.now ≡ true }
    ensures stored { OnOk result (R.known.written (object_path folder.now function.now) bytes.now) }
    ensures fault { IfErr result (IsUnplaced R.known folder.entry) }
{
    let path = format!(in rt.alloc(); "{folder}/{function}.o")?;
    match files::write_accepted(rt, path.as_str(), bytes) {
        Ok(()) => Ok(()),
        Err(HooktoolFault::Write { .. }) => Err(HooktoolFault::Write { path: folder }),
        Err(_) => Err(HooktoolFault::Memory),
    }
}

/// Writes the object of a function, which the verifier accepted, and tells its bound.
fn write_function<'a, R: WholeFiles + AllocGlobal>(
    rt: &R,
    folder: &'a str,
    hook: Hook,
    function: &str,
    found: &AnnotatedObject,
) -> Result<CommandReport, HooktoolFault<'a>>
    requires accepted { Accepts found.now.annotated.bytes.items found.now.annotated.accepted }
    requires plain { is_file_name function.now ≡ true }
    ensures stored { IfOk result (λ report. R.known.written
        (object_path folder.now function.now) found.now.annotated.bytes.items) }
    ensures told { IfOk result (λ report. string_bytes report.text
        ≡ built_text folder.now function.now (hook_name hook)
        found.now.annotated.accepted found.now.turns) }
    ensures fault { IfErr result (IsUnplaced R.known folder.entry) }
{
    let text = line_of(rt.alloc(), folder, function, hook.name(), found)?;
    match write_object(rt, folder, function, &found.annotated.bytes) {
        Ok(()) => Ok(CommandReport {
            text,
            is_refused: false,
        }),
        Err(fault) => Err(fault),
    }
}

/// What the verifier knows at each slot of the object that was found for a function.
fn explain_function<'a>(
    alloc: Global,
    names: Names<'_>,
    found: &AnnotatedObject,
) -> Result<CommandReport, HooktoolFault<'a>>
    ensures explained { IfOk result (IsExplained found.now.annotated.bytes.items) }
    ensures fault { IfErr result (λ fault. fault ≡ HooktoolFault.Memory) }
{
    let Ok(explained) = explanation_of(alloc, &found.annotated.bytes) else {
        // The verifier accepted these bytes.
        return Err(HooktoolFault::Memory);
    };
    let mut text = about(alloc, names.section, names.function);
    text.push(match found.turns {
        Some(_) => ": its turns are counted, so each slot is one later\n",
        None => ":\n",
    });
    let head = told(text.finish(), false)?;
    added(head, Ok(explained))
}

/// The report on a function for which no object was found. Its code has `size` bytes.
fn shortfall_refusal<'a>(
    alloc: Global,
    order: &Order<'_>,
    names: Names<'_>,
    size: usize,
    error: Shortfall,
) -> Result<CommandReport, HooktoolFault<'a>>
    ensures refused { IfOk result (λ report. report.is_refused ≡ true) }
    ensures fault { IfErr result (λ fault. fault ≡ HooktoolFault.Memory) }
{
    let telling = Telling {
        is_whole: matches!(order.purpose, Purpose::Explanation),
        turns: order.fuel.turns,
        slots: Some(size / 8),
    };
    function_refusal(alloc, names, shortfall(alloc, error, telling))
}

/// Writes the object that was found for a function, or explains it.
fn hand_out<'a, R: WholeFiles + AllocGlobal>(
    rt: &R,
    purpose: Purpose<'a>,
    hook: Hook,
    names: Names<'_>,
    name: &str,
    found: &AnnotatedObject,
) -> Result<CommandReport, HooktoolFault<'a>>
    requires accepted { Accepts found.now.annotated.bytes.items found.now.annotated.accepted }
    requires plain { is_file_name name.now ≡ true }
    ensures made { IfOk result (IsHandedOut R.known.written purpose.entry name.now (hook_name hook)
        found.now.annotated.bytes.items found.now.annotated.accepted found.now.turns) }
    ensures fault { IfErr result (IsBuildFault R.known purpose.entry) }
{
    match purpose {
        Purpose::Object { folder } => write_function(rt, folder, hook, name, found),
        Purpose::Explanation => explain_function(rt.alloc(), names, found),
    }
}

/// Makes the object of a function with this code, or tells why there is none.
fn build_code<'a, R: WholeFiles + AllocGlobal>(
    rt: &R,
    order: &Order<'a>,
    hook: Hook,
    names: Names<'_>,
    code: &[u8],
) -> Result<CommandReport, HooktoolFault<'a>>
    ensures built { IfOk result (IsBuiltCode (wanted_of R.known order.now) hook
        names.entry.function.now code.now) }
    ensures fault { IfErr result (IsBuildFault R.known order.now.purpose) }
{
    let Some(name) = as_file_name(names.function) else {
        let why = ": its name can't be a file's\n";
        return function_told(rt.alloc(), names.section, names.function, why);
    };
    match annotate_file(rt.alloc(), hook, code, fuel_for(hook, order.fuel)) {
        Ok(found) => hand_out(rt, order.purpose, hook, names, name, &found),
        Err(error) => shortfall_refusal(rt.alloc(), order, names, code.len(), error),
    }
}

/// Makes the object of a function of the file, or tells why there is none.
fn build_function<'a, R: WholeFiles + AllocGlobal>(
    rt: &R,
    order: &Order<'a>,
    hook: Hook,
    file: &ObjectFile<'_>,
    index: usize,
    function: &LinkedSymbol,
) -> Result<CommandReport, HooktoolFault<'a>>
    requires section { index < section_count file.now }
    // Beside a refusal, too, no object is made of a function that a linker would change.
    requires unchanged { is_changed (relocations_of file.now index) function.now ≡ false }
    ensures built { IfOk result (λ report. (report.is_refused ≡ true)
        ⊎ IsBuiltFunction file.now (wanted_of R.known order.now) hook function.now
        (string_bytes report.text)) }
    ensures fault { IfErr result (IsBuildFault R.known order.now.purpose) }
{
    let section = file.section_name(index);
    let Some(name) = file.symbol_name(function.table, function.index) else {
        return function_told(rt.alloc(), section, b"", "");
    };
    let Some(code) = file.symbol_bytes(function.symbol) else {
        let why = ": its code isn't in the section\n";
        return function_told(rt.alloc(), section, name, why);
    };
    let names = Names {
        section,
        function: name,
    };
    build_code(rt, order, hook, names, code)
}

/// The report on a section with instructions that is for no hook.
fn section_refusal<'a>(
    alloc: Global,
    purpose: Purpose<'_>,
    _given: Option<Hook>,
    section: &[u8],
) -> Result<CommandReport, HooktoolFault<'a>>
    requires { IsForNoHook _given section.now }
    ensures refused { IfOk result (λ report. report.is_refused ≡ true) }
    ensures fault { IfErr result (λ fault. fault ≡ HooktoolFault.Memory) }
{
    let mut text = Text::new(alloc);
    text.push("section ");
    text.push(shown(section));
    text.push(
        ": it has functions, and names no hook: write SEC(\"veto\"), or of count, tag and price, \
            before a program, static inline before another function",
    );
    let is_text = section.len() == 5 && section.starts_with(b".text");
    let may_be_asked = matches!(purpose, Purpose::Object { .. });
    text.push(if is_text & may_be_asked {
        "; or --hook\n"
    } else {
        "\n"
    });
    refusal(text)
}

/// The report on a section whose instructions are no function's.
fn nothing_refusal<'a>(
    alloc: Global,
    section: &[u8],
    _functions: &[LinkedSymbol],
) -> Result<CommandReport, HooktoolFault<'a>>
    requires { length _functions.now ≡ 0 }
    ensures refused { IfOk result (λ report. report.is_refused ≡ true) }
    ensures fault { IfErr result (λ fault. fault ≡ HooktoolFault.Memory) }
{
    let mut text = Text::new(alloc);
    text.push("section ");
    text.push(shown(section));
    text.push(": it has instructions and no function\n");
    refusal(text)
}

/// Makes the objects of these functions of a section.
fn build_functions<'a, R: WholeFiles + AllocGlobal>(
    rt: &R,
    order: &Order<'a>,
    hook: Hook,
    file: &ObjectFile<'_>,
    index: usize,
    functions: &[LinkedSymbol],
) -> Result<CommandReport, HooktoolFault<'a>>
    requires section { index < section_count file.now }
    requires unchanged { All (λ function. is_changed (relocations_of file.now index) function
        ≡ false) functions.now }
    ensures built { IfOk result (λ report. (report.is_refused ≡ true)
        ⊎ AreBuiltFunctions file.now (wanted_of R.known order.now) hook functions.now
        (length functions.now) (string_bytes report.text)) }
    ensures fault { IfErr result (IsBuildFault R.known order.now.purpose) }
{
    let mut report = CommandReport {
        text: String::new(rt.alloc()),
        is_refused: false,
    };
    for function in functions {
        let built = build_function(rt, order, hook, file, index, function);
        match added(report, built) {
            Ok(more) => report = more,
            Err(fault) => return Err(fault),
        }
    }
    Ok(report)
}

/// Makes the objects of those functions of a section that no linker would change.
fn build_unchanged<'a, R: WholeFiles + AllocGlobal>(
    rt: &R,
    order: &Order<'a>,
    hook: Hook,
    file: &ObjectFile<'_>,
    index: usize,
    functions: &[LinkedSymbol],
    relocations: &[LinkedRelocation],
) -> Result<CommandReport, HooktoolFault<'a>>
    requires section { index < section_count file.now }
    requires relocations { relocations.now ≡ relocations_of file.now index }
    ensures { IfErr result (IsBuildFault R.known order.now.purpose) }
{
    let others = unchanged(rt.alloc(), functions, relocations)?;
    build_functions(rt, order, hook, file, index, &others)
}

/// Tells of the functions of a section that a linker would change, and makes the objects of the
/// others.
fn build_others<'a, R: WholeFiles + AllocGlobal>(
    rt: &R,
    order: &Order<'a>,
    hook: Hook,
    file: &ObjectFile<'_>,
    index: usize,
    functions: &[LinkedSymbol],
    relocations: &[LinkedRelocation],
) -> Result<CommandReport, HooktoolFault<'a>>
    requires section { index < section_count file.now }
    requires relocations { relocations.now ≡ relocations_of file.now index }
    ensures refused { IfOk result (λ report. report.is_refused ≡ true) }
    ensures fault { IfErr result (IsBuildFault R.known order.now.purpose) }
{
    let section = Section {
        name: file.section_name(index),
        contents: file.contents(index),
    };
    let built = build_unchanged(rt, order, hook, file, index, functions, relocations)?;
    relocation_report(rt.alloc(), file, section, functions, relocations, &built)
}

/// Makes the objects of a section for this hook with these functions.
fn build_for<'a, R: WholeFiles + AllocGlobal>(
    rt: &R,
    order: &Order<'a>,
    hook: Hook,
    file: &ObjectFile<'_>,
    index: usize,
    functions: &[LinkedSymbol],
) -> Result<CommandReport, HooktoolFault<'a>>
    requires section { index < section_count file.now }
    requires hook { IsHookOf order.now.hook (section_name file.now index) hook }
    requires functions { functions.now ≡ functions_of file.now index }
    ensures built { IfOk result (λ report. (report.is_refused ≡ true)
        ⊎ IsBuiltSection file.now (wanted_of R.known order.now) index (string_bytes report.text)) }
    ensures fault { IfErr result (IsBuildFault R.known order.now.purpose) }
{
    let relocations = file.relocations(rt.alloc(), index)?;
    if !relocations.is_empty() {
        return build_others(rt, order, hook, file, index, functions, &relocations);
    }
    build_functions(rt, order, hook, file, index, functions)
}

/// Makes the objects of the functions of a section with instructions, or tells why there are none.
fn build_section<'a, R: WholeFiles + AllocGlobal>(
    rt: &R,
    order: &Order<'a>,
    file: &ObjectFile<'_>,
    index: usize,
) -> Result<CommandReport, HooktoolFault<'a>>
    requires { index < section_count file.now }
    ensures built { IfOk result (λ report. (report.is_refused ≡ true)
        ⊎ IsBuiltSection file.now (wanted_of R.known order.now) index (string_bytes report.text)) }
    ensures fault { IfErr result (IsBuildFault R.known order.now.purpose) }
{
    let name = file.section_name(index);
    let Some(hook) = hook_in(order.hook, name) else {
        return section_refusal(rt.alloc(), order.purpose, order.hook, name);
    };
    let functions = file.functions(rt.alloc(), index)?;
    if functions.is_empty() {
        return nothing_refusal(rt.alloc(), name, &functions);
    }
    build_for(rt, order, hook, file, index, &functions)
}

/// Whether a section has instructions.
fn is_program_section(file: &ObjectFile<'_>, index: usize) -> bool
    requires { index < section_count file.now }
    ensures { result ≡ is_program_section file.now index }
{
    file.section(index).is_code() && !file.contents(index).is_empty()
}

/// Makes the objects of a section, if it has instructions.
fn build_at<'a, R: WholeFiles + AllocGlobal>(
    rt: &R,
    order: &Order<'a>,
    file: &ObjectFile<'_>,
    index: usize,
) -> Result<CommandReport, HooktoolFault<'a>>
    requires { index < section_count file.now }
    ensures built { IfOk result (λ report. (report.is_refused ≡ true)
        ⊎ IsBuiltAt file.now (wanted_of R.known order.now) index (string_bytes report.text)) }
    ensures fault { IfErr result (IsBuildFault R.known order.now.purpose) }
{
    if is_program_section(file, index) {
        return build_section(rt, order, file, index);
    }
    Ok(CommandReport {
        text: String::new(rt.alloc()),
        is_refused: false,
    })
}

/// Makes the objects of all sections with instructions.
fn build_sections<'a, R: WholeFiles + AllocGlobal>(
    rt: &R,
    order: &Order<'a>,
    file: &ObjectFile<'_>,
) -> Result<CommandReport, HooktoolFault<'a>>
    ensures built { IfOk result (λ report. (report.is_refused ≡ true)
        ⊎ AreBuiltSections file.now (wanted_of R.known order.now) (section_count file.now)
        (string_bytes report.text)) }
    ensures fault { IfErr result (IsBuildFault R.known order.now.purpose) }
{
    let mut report = CommandReport {
        text: String::new(rt.alloc()),
        is_refused: false,
    };
    for index in 0..file.section_count() {
        match added(report, build_at(rt, order, file, index)) {
            Ok(more) => report = more,
            Err(fault) => return Err(fault),
        }
    }
    Ok(report)
}

/// The report on a file that isn't what clang writes.
fn no_elf<'a>(
    alloc: Global,
    path: &str,
    fault: elf::ElfFault,
) -> Result<CommandReport, HooktoolFault<'a>>
    ensures refused { IfOk result (λ report. report.is_refused ≡ true) }
    ensures fault { IfErr result (λ fault. fault ≡ HooktoolFault.Memory) }
{
    let hint = match fault {
        elf::ElfFault::NotElf =>
            "  compile C first: clang -O2 -target bpf -mcpu=v3 -c PROGRAM.c -o FILE (Debian's \
                package clang), or hookcc PROGRAM.c\n",
        _ => "",
    };
    told(format!(in alloc; "{path}: {fault}\n{hint}"), true)
}

/// Whether one of the sections has instructions.
fn has_program(file: &ObjectFile<'_>) -> bool
    ensures found { result ≡ true → HasProgram file.now }
    ensures none { result ≡ false → HasNoProgram file.now }
{
    for index in 0..file.section_count() {
        if is_program_section(file, index) {
            return true;
        }
    }
    false
}

/// The report on a file without a program.
fn no_program<'a>(
    alloc: Global,
    path: &str,
    _file: &ObjectFile<'_>,
) -> Result<CommandReport, HooktoolFault<'a>>
    requires { HasNoProgram _file.now }
    ensures refused { IfOk result (λ report. report.is_refused ≡ true) }
    ensures fault { IfErr result (λ fault. fault ≡ HooktoolFault.Memory) }
{
    told(format!(in alloc; "{path}: it has no function\n"), true)
}

/// Makes an object of each function of the file that is in the section of a hook.
fn build_file<'a, R: WholeFiles + AllocGlobal>(
    rt: &R,
    order: &Order<'a>,
    path: &str,
    file: &ObjectFile<'_>,
) -> Result<CommandReport, HooktoolFault<'a>>
    ensures built { IfOk result (λ report. (report.is_refused ≡ true)
        ⊎ (HasProgram file.now × AreBuiltSections file.now (wanted_of R.known order.now)
        (section_count file.now) (string_bytes report.text))) }
    ensures fault { IfErr result (IsBuildFault R.known order.now.purpose) }
{
    if has_program(file) {
        return build_sections(rt, order, file);
    }
    no_program(rt.alloc(), path, file)
}

/// Makes an object of each function in these bytes of a file that is in the section of a hook.
pub(crate) fn build_bytes<'a, R: WholeFiles + AllocGlobal>(
    rt: &R,
    order: &Order<'a>,
    path: &str,
    bytes: &[u8],
) -> Result<CommandReport, HooktoolFault<'a>>
    ensures built { IfOk result (IsBuilt bytes.now (wanted_of R.known order.now)) }
    ensures fault { IfErr result (IsBuildFault R.known order.now.purpose) }
{
    match elf::read(bytes) {
        Ok(file) => build_file(rt, order, path, &file),
        Err(fault) => no_elf(rt.alloc(), path, fault),
    }
}
