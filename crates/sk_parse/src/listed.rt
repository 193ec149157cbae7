//! Lists with commas between.

ghost use Rattle.std.specs.Prelude.{◌≡◌};
ghost use Rattle.sk_parse.specs.Input.{Reads};
ghost use Rattle.sk_parse.specs.Input as spec;

use crate::cursor::Cursor;
use crate::fault::Fault;
use crate::marks::COMMA;
use crate::terms::{literal, name};
use sk_rows::{List, Txt, Value};
use std::alloc::Global;

/// What can stand in a list.
pub trait Parses: Drop {
    ghost use Rattle.sk_parse.specs.Input.{Parser};

    ghost parser: { Parser Self };

    /// One of them.
    fn parse(alloc: Global, cursor: &mut Cursor<'_>) -> Result<Self, Fault>
        ensures { Reads (parser cursor.old) result cursor.new };
}

impl Parses for Txt {
    ghost use Rattle.sk_parse.specs.Terms.{name as name_of};

    ghost parser = { name_of };

    fn parse(alloc: Global, cursor: &mut Cursor<'_>) -> Result<Txt, Fault> {
        name(alloc, cursor)
    }
}

impl Parses for Value {
    ghost use Rattle.sk_parse.specs.Terms.{literal as literal_of};

    ghost parser = { literal_of };

    fn parse(alloc: Global, cursor: &mut Cursor<'_>) -> Result<Value, Fault> {
        literal(alloc, cursor)
    }
}

#[tactic(auto, unfolding(crate::specs::Input::listed, crate::specs::Input::listed_from))]
fn collected<T: Parses>(alloc: Global, cursor: &mut Cursor<'_>) -> Result<List<T>, Fault>
    ensures { Reads (spec.listed T.parser cursor.old) result cursor.new }
{
    let mut found = List::new(alloc);
    found.push(T::parse(alloc, cursor)?)?;
    for _turn in 0..cursor.left() {
        if !cursor.eat(COMMA) {
            return Ok(found);
        }
        found.push(T::parse(alloc, cursor)?)?;
    }
    Ok(found)
}

/// One or more, with commas between. The list has room for these and no more.
pub fn listed<T: Parses>(alloc: Global, cursor: &mut Cursor<'_>) -> Result<List<T>, Fault>
    ensures { Reads (spec.listed T.parser cursor.old) result cursor.new }
{
    let mut found = collected(alloc, cursor)?;
    found.shrink_to_fit();
    Ok(found)
}
