//! Linking a whole set.

ghost use Rattle.std.specs.Prelude.{◌≡◌, ◌<◌, OnOk, IfOk, length};
ghost use Rattle.class_set.specs.Closed.{Closed};
ghost use Rattle.run_state.specs.SetLooks as looks;
ghost use Rattle.program_links.specs.Before.{AreBefore};
ghost use Rattle.program_links.specs.Numbers.{Grows};
ghost use Rattle.program_links.specs.LinkTo.{CodeOf, RowsOf, EndsOf, IsNoMethod, IsLinked};
ghost use Rattle.program_links.specs.Each.{Numbered};
ghost use Rattle.program_links.specs.RowTo.{IsClassType};
ghost use Rattle.program_links.specs.WorldOf.{name_at};

use crate::before::{Before, count_before};
use crate::cells::first_statics;
use crate::class_rows::{class_parts, class_rows, class_types, no_class};
use crate::known::{arguments_type, chars_type, faults, object_class, string_class, value_place};
use crate::methods::link_methods;
use crate::starts::main_method;
use crate::tables::Tables;
use crate::type_rows::{base_classes, no_type, type_rows};
use class_set::{ClassId, ClassSet};
use linked_code::{FaultClasses, LinkedClass, LinkedType, Method, Narrowing, Program};
use lists::{Seq, Units};
use machine_words::{Tag, Word};
use std::alloc::{AllocError, Global};

/// The linked methods, and the numbers of types that stand in no code: of the classes, of the array that `main` is called with, and
/// of an array of characters.
#[derive(Drop)]
pub struct Code {
    pub methods: Seq<Method>,
    pub types: Seq<u32>,
    pub arguments: u32,
    pub chars: u32,
}

/// The rows of classes and of types.
#[derive(Drop)]
pub struct Rows<T> {
    pub classes: Seq<LinkedClass<T>>,
    pub no_class: LinkedClass<T>,
    pub types: Seq<LinkedType<T>>,
    pub no_type: LinkedType<T>,
}

/// The rest of a program.
#[derive(Drop)]
pub struct Ends<T> {
    pub main: Option<u32>,
    pub faults: FaultClasses,
    pub no_method: Method,
    pub string: u32,
    pub value: Option<u32>,
    pub texts: Seq<Units>,
    pub statics: Seq<Word<T>>,
}

/// Links the code of all methods, and puts the types that stand in no code behind those that it names.
#[tactic(auto, using(crate::proofs::GrownCode::code_of, crate::proofs::Growing::grown_further))]
fn link_code(
    alloc: Global,
    set: &ClassSet,
    before: &Seq<Before>,
    tables: &mut Tables,
) -> Result<Code, AllocError>
    requires closed { Closed set.now }
    requires rows { AreBefore set.now before.now (length set.now) }
    ensures { IfOk result (CodeOf set.now tables.new) }
{
    let methods = link_methods(alloc, set, before, tables)?;
    let types = class_types(alloc, set, tables)?;
    let arguments = arguments_type(alloc, tables)?;
    let chars = chars_type(tables)?;
    Ok(Code {
        methods,
        types,
        arguments,
        chars,
    })
}

/// The rows of classes and types.
fn link_rows<T: Tag>(
    alloc: Global,
    set: &ClassSet,
    before: &Seq<Before>,
    tables: &Tables,
    types: &Seq<u32>,
) -> Result<Rows<T>, AllocError>
    requires closed { Closed set.now }
    requires rows { AreBefore set.now before.now (length set.now) }
    requires types { Numbered (IsClassType tables.now set.now) types.now (length set.now) }
    ensures { IfOk result (RowsOf T.none_of set.now tables.now) }
{
    let parts = class_parts(alloc, set, before, tables, types)?;
    let classes = class_rows(alloc, set, tables, &parts)?;
    let no_class = no_class(alloc, set, tables)?;
    let bases = base_classes(alloc, set, tables)?;
    let types = type_rows(alloc, set, tables, &bases, object_class(set))?;
    let no_type = no_type(alloc, set, tables)?;
    Ok(Rows {
        classes,
        no_class,
        types,
        no_type,
    })
}

/// A method that has nothing.
fn no_method(alloc: Global, set: &ClassSet) -> Method
    ensures { IsNoMethod set.now result }
{
    Method {
        class: set.len(),
        params: 0,
        locals: 0,
        room: 0,
        code: Seq::new(alloc),
        handlers: Seq::new(alloc),
        native: None,
        begins: None,
        narrowing: Narrowing::Whole,
    }
}

/// The rest of a program.
#[tactic(auto, using(crate::proofs::Started::main_is))]
fn link_ends<T: Tag>(
    alloc: Global,
    set: &ClassSet,
    main: ClassId,
    before: &Seq<Before>,
    tables: &Tables,
) -> Result<Ends<T>, AllocError>
    requires closed { Closed set.now }
    requires there { main.0 < length set.now }
    requires rows { AreBefore set.now before.now (length set.now) }
    ensures { IfOk result (EndsOf T.none_of set.now tables.now main.0) }
{
    let main = main_method(set, before, main.0)?;
    let value = value_place(alloc, set, before)?;
    let texts = tables.all_texts(alloc)?;
    let statics = first_statics(alloc, set)?;
    Ok(Ends {
        main,
        faults: faults(set),
        no_method: no_method(alloc, set),
        string: string_class(set),
        value,
        texts,
        statics,
    })
}

/// The program of these parts. Takes no memory.
fn assemble<T: Tag>(
    _set: &ClassSet,
    _main: ClassId,
    tables: Tables,
    code: Code,
    rows: Rows<T>,
    ends: Ends<T>,
) -> Program<T>
    requires closed { Closed _set.now }
    requires code { CodeOf _set.now tables code }
    requires rows { RowsOf T.none_of _set.now tables rows }
    requires ends { EndsOf T.none_of _set.now tables _main.0 ends }
    ensures links { IsLinked T.none_of _set.now (name_at _set.now _main.0) result }
    ensures statics { result.statics ≡ looks.first_statics T.none_of _set.now }
{
    let lists = tables.into_lists();
    Program {
        main: ends.main,
        arguments: code.arguments,
        faults: ends.faults,
        methods: code.methods,
        no_method: ends.no_method,
        classes: rows.classes,
        no_class: rows.no_class,
        types: rows.types,
        no_type: rows.no_type,
        tables: lists.tables,
        rows: lists.rows,
        calls: lists.calls,
        texts: ends.texts,
        string: ends.string,
        chars: code.chars,
        value: ends.value,
        statics: ends.statics,
    }
}

fn link_before<T: Tag>(
    alloc: Global,
    set: &ClassSet,
    main: ClassId,
    before: &Seq<Before>,
) -> Result<Program<T>, AllocError>
    requires closed { Closed set.now }
    requires there { main.0 < length set.now }
    requires rows { AreBefore set.now before.now (length set.now) }
    ensures links { IfOk result (λ program. IsLinked T.none_of set.now (name_at set.now main.0) program) }
    ensures statics { IfOk result (λ program. program.statics ≡ looks.first_statics T.none_of set.now) }
{
    let mut tables = Tables::new(alloc);
    let code = link_code(alloc, set, before, &mut tables)?;
    let rows = link_rows(alloc, set, before, &tables, &code.types)?;
    let ends = link_ends(alloc, set, main, before, &tables)?;
    Ok(assemble(set, main, tables, code, rows, ends))
}

/// Links a closed set of classes into the program whose `main` is that of a class.
///
/// In the world of the set (`IsLinked`) each number of the program leads to what the look-ups find: methods, classes, types,
/// selections, places of fields and texts. The static fields hold their constants and defaults at the start. Takes time in
/// proportion to the code, to the methods and fields of each class with those of its superclasses, and to the pairs of types.
pub fn link<T: Tag>(alloc: Global, set: &ClassSet, main: ClassId) -> Result<Program<T>, AllocError>
    requires there { main.0 < length set.now }
    ensures links { IfOk result (λ program. IsLinked T.none_of set.now (name_at set.now main.0) program) }
    ensures statics { IfOk result (λ program. program.statics ≡ looks.first_statics T.none_of set.now) }
{
    let _closed = set.classes();
    let before = count_before(alloc, set)?;
    link_before(alloc, set, main, &before)
}
