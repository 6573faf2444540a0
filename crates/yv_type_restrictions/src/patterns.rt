//! The tests that the patterns of a type statement are.
ghost use Rattle.std.specs.{Prelude.{◌≡◌, ◌++◌, map, option_to_list, IfOk, IfErr, OnOk}, Option.{option_map}};
ghost use Rattle.yv_text_statement.specs.Order.{IsLeast};
ghost use Rattle.yv_values.specs.Types.{test_of};
ghost use Rattle.yv_type_restrictions.specs.{Facets.{AreTests, IsTest}, FacetRefusals.{BadPattern, BadPatterns, HasPattern, IsPattern}, InnerStops.{StopsWhere}};

use crate::restriction::{child, text_of};
use std::alloc::{AllocError, Global};
use yv_pattern::Patterns;
use yv_text_statement::{Code, Keyword, Refusal, Statement, Stop, lesser, refusal_if};
use yv_values::PatternTest;

// The test that a statement is, and its refusal where it is a pattern outside the dialect.
#[derive(Drop)]
struct Reading {
    test: Option<PatternTest>,
    fault: Option<Refusal>,
}

/// The tests that statements are, and the least of their refusals.
#[derive(Drop)]
pub struct Readings {
    pub tests: Vec<PatternTest>,
    pub fault: Option<Refusal>,
}

/// The tests that the patterns among some statements are, in order.
pub fn read_tests(
    alloc: Global,
    patterns: &mut Patterns,
    file: u32,
    statements: &[Statement<'_>],
) -> Result<Readings, Stop>
    ensures tests { IfOk result (λ r. AreTests statements.now (map test_of r.tests.items)) }
    ensures fault { IfOk result (λ r. IsLeast (BadPatterns file statements.now) r.fault) }
    ensures stops { IfErr result (StopsWhere (HasPattern statements.now)) }
{
    let mut tests = Vec::new(alloc);
    let mut fault = None;
    for statement in statements {
        let reading = match read_test(alloc, patterns, file, statement) {
            Ok(reading) => reading,
            Err(stop) => return Err(stop),
        };
        fault = lesser(fault, reading.fault);
        keep(&mut tests, reading.test)?;
    }
    Ok(Readings { tests, fault })
}

fn keep(tests: &mut Vec<PatternTest>, test: Option<PatternTest>) -> Result<(), AllocError>
    ensures { OnOk result (map test_of tests.new.items
        ≡ map test_of tests.old.items ++ option_to_list (option_map test_of test)) }
{
    if let Some(test) = test {
        tests.push(test)?;
    }
    Ok(())
}

fn read_test(
    alloc: Global,
    patterns: &mut Patterns,
    file: u32,
    statement: &Statement<'_>,
) -> Result<Reading, Stop>
    ensures test { IfOk result (λ r. IsTest statement.now (option_map test_of r.test)) }
    ensures fault { IfOk result (λ r. IsLeast (BadPattern file statement.now) r.fault) }
    ensures stops { IfErr result (StopsWhere (IsPattern statement.now)) }
{
    if !statement.is(Keyword::Pattern) {
        return Ok(Reading {
            test: None,
            fault: None,
        });
    }
    match patterns.read(alloc, text_of(statement)) {
        Ok(pattern) => Ok(Reading {
            test: Some(PatternTest {
                pattern,
                is_inverted: child(Keyword::Modifier, statement).is_some(),
            }),
            fault: None,
        }),
        Err(Stop::Fault(_)) => Ok(Reading {
            test: None,
            fault: refusal_if(true, Code::BadPattern, file, statement),
        }),
        Err(stop) => Err(stop),
    }
}
