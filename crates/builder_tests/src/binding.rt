//! Each call that binds values, of each type of template and of each type of names.
ghost use Rattle.std.specs.Prelude.{None};

use crate::every_call::{Made, is_made};
use sql_builder::SqlBuilderError;
use sql_builder::lex::{has_dangling, stands_apart};
use sql_builder::prelude::*;
use std::alloc::Global;
use std::collections::HashMap;
use std::test::Fail;

/// Whether each call binds its placeholder of the template `?$1:a:`, those of lists to 10.
fn is_bound<B: Bind>(alloc: Global, template: &B, args: &[Box<dyn SqlArg>]) -> bool {
    is_made(template.bind(alloc, &"it's"), "'it''s'$1:a:")
        && is_made(template.binds(alloc, args), "10$1:a:")
        && is_made(template.bind_num(alloc, 1, &7), "?7:a:")
        && is_made(template.bind_nums(alloc, args), "?10:a:")
        && is_made(template.bind_name(alloc, &"a", &7), "?$17")
}

#[test]
fn binds_values(rt: HostRuntime) -> Result<(), Fail> {
    let alloc = rt.alloc();
    let mut args: Vec<Box<dyn SqlArg>> = Vec::new(alloc);
    args.push(Box::new(alloc, 10)?)?;
    assert!(rt; is_bound(alloc, &"?$1:a:", args.as_slice()), "&str");
    let template = String::from_str(alloc, "?$1:a:")?;
    assert!(rt; is_bound(alloc, &template, args.as_slice()), "String");
    Ok(())
}

/// Names of which none is bound, by no more than what the trait asks for.
#[derive(Drop)]
struct NoNames;

impl BindNames for NoNames {
    ghost literals = { λ _ _. None };

    fn look_up(&self, _alloc: Global, _name: &str) -> Result<Option<String>, SqlBuilderError> {
        Ok(None)
    }
}

/// Whether names bind a template so, borrowed and owned.
fn are_bound<N: BindNames + Drop>(alloc: Global, names: N, wanted: &str) -> bool {
    let is_bound = is_made(":x::c:".bind_names(alloc, &names), wanted);
    match String::from_str(alloc, ":x::c:") {
        Ok(template) => is_bound && is_made(template.bind_names(alloc, &names), wanted),
        Err(_) => false,
    }
}

/// The literal of the name `x`, appended.
fn appended<N: BindNames>(alloc: Global, names: &N) -> Made {
    let places = names.places(alloc)?;
    let mut text = String::from_str(alloc, "x = ")?;
    names.push_named(alloc, &places, "x", &mut text)?;
    Ok(text)
}

/// Whether names have this literal of the name `x`, looked up and appended.
fn are_found<N: BindNames + Drop>(alloc: Global, names: N, equation: &str) -> bool {
    let is_found = match names.look_up(alloc, "x") {
        Ok(Some(text)) => Some(text.as_str()) == equation.strip_prefix("x = "),
        Ok(None) => equation == "x = NULL",
        Err(_) => false,
    };
    is_found && is_made(appended(alloc, &names), equation)
}

fn push_pair(
    alloc: Global,
    pairs: &mut Vec<(&str, Box<dyn SqlArg>)>,
    value: i64,
) -> Result<(), SqlBuilderError> {
    Ok(pairs.push(("x", Box::new(alloc, value)?))?)
}

#[test]
fn binds_names_of_pairs(rt: HostRuntime) -> Result<(), Fail> {
    let alloc = rt.alloc();
    let mut pairs: Vec<(&str, Box<dyn SqlArg>)> = Vec::new(alloc);
    push_pair(alloc, &mut pairs, 1)?;
    push_pair(alloc, &mut pairs, 2)?;
    assert!(rt; are_bound(alloc, pairs.as_slice(), "2NULL"), "a slice");
    assert!(rt; are_found(alloc, pairs.as_slice(), "x = 2"), "a slice");
    assert!(rt; are_bound(alloc, &pairs, "2NULL"), "a reference");
    assert!(rt; are_found(alloc, &pairs, "x = 2"), "a reference");
    assert!(rt; are_bound(alloc, pairs, "2NULL"), "a list");
    Ok(())
}

#[test]
fn binds_names_of_maps(rt: HostRuntime) -> Result<(), Fail> {
    let alloc = rt.alloc();
    let mut map: HashMap<&str, Box<dyn SqlArg>> = HashMap::new(alloc);
    let _ = map.insert("x", Box::new(alloc, 1)?)?;
    assert!(rt; are_found(alloc, &map, "x = 1"), "a reference");
    assert!(rt; are_bound(alloc, map, "1NULL"), "a map");
    Ok(())
}

#[test]
fn binds_names_of_other_types(rt: HostRuntime) -> Result<(), Fail> {
    assert!(rt; are_found(rt.alloc(), NoNames, "x = NULL"));
    assert!(rt; are_bound(rt.alloc(), NoNames, "NULLNULL"));
    Ok(())
}

/// Whether a template is said to stand apart, or not to.
fn is_apart(alloc: Global, template: &str, marks: Marks<'_>, wanted: bool) -> bool {
    match stands_apart(alloc, template, &marks) {
        Ok(is_apart) => is_apart == wanted,
        Err(_) => false,
    }
}

#[test]
fn says_which_templates_stand_apart(rt: HostRuntime) -> Result<(), Fail> {
    let alloc = rt.alloc();
    assert!(rt; is_apart(alloc, "x = ? AND y = ?", Marks::Cycle(2), true));
    assert!(rt; is_apart(alloc, "?", Marks::Cycle(0), false), "no argument");
    assert!(rt;
        is_apart(alloc, "'?'", Marks::First, false),
        "open segments"
    );
    assert!(rt;
        is_apart(alloc, "x = '?", Marks::First, false),
        "an open end"
    );
    assert!(rt;
        is_apart(alloc, "x = 'y", Marks::First, false),
        "no placeholder"
    );
    assert!(rt; is_apart(alloc, "a$1", Marks::Nums(1), false), "a touch");
    assert!(rt; is_apart(alloc, "a$1", Marks::Nums(0), true));
    assert!(rt; is_apart(alloc, "(:n:)", Marks::Names, true));
    Ok(())
}

/// Whether a text is said to dangle, or not to.
fn is_dangling(alloc: Global, text: &str, wanted: bool) -> bool {
    match has_dangling(alloc, text) {
        Ok(is_dangling) => is_dangling == wanted,
        Err(_) => false,
    }
}

#[test]
fn says_which_texts_dangle(rt: HostRuntime) -> Result<(), Fail> {
    let alloc = rt.alloc();
    assert!(rt; is_dangling(alloc, "a OR", true));
    assert!(rt; is_dangling(alloc, "x BETWEEN 1", true));
    assert!(rt; is_dangling(alloc, "x BETWEEN 1 AND 2 AND y", false));
    assert!(rt; is_dangling(alloc, "(a) AND (x BETWEEN 1 AND 2)", false));
    Ok(())
}
