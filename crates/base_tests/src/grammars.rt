use std::test::Fail;
use text_core::List;
use token_grammar::{Refusal, Stack, Step, expand, recognize};
use token_grammar_examples::Rule::Whole;
use token_grammar_examples::Symbol::{Row, Taken};
use token_grammar_examples::Taker::Number;
use token_grammar_examples::{
    Count, Expression, Fault, MOST_LEVELS, MOST_PIECES, Mark, expressions_have_one_value,
    read_expression,
};

// Whether these are two numbers.
fn are_numbers(list: &List<Expression>, first: u32, second: u32) -> bool {
    match list.as_slice() {
        [Expression::Number(one), Expression::Number(other)] => *one == first && *other == second,
        _ => false,
    }
}

#[test]
fn sums_and_signs_are_read(rt: HostRuntime) -> Result<(), Fail> {
    // 1 + (2 + 3) + -4
    let tokens = vec![in rt.alloc();
        Mark::Number(1),
        Mark::Plus,
        Mark::Open,
        Mark::Number(2),
        Mark::Plus,
        Mark::Number(3),
        Mark::Close,
        Mark::Plus,
        Mark::Minus,
        Mark::Number(4),
    ]?;
    expressions_have_one_value(&tokens);
    let sum = read_expression(rt.alloc(), &tokens);
    assert!(rt;
        match &sum {
            Ok(Expression::Sum(operands)) => match operands.as_slice() {
                [
                    Expression::Number(1),
                    Expression::Sum(inner),
                    Expression::Negated(last)
                ] => { are_numbers(inner, 2, 3) && matches!(last.get(), Expression::Number(4)) }
                _ => false,
            },
            _ => false,
        }
    );
    Ok(())
}

#[test]
fn rows_are_read(rt: HostRuntime) -> Result<(), Fail> {
    // [[1, 2], 3, []]
    let tokens = vec![in rt.alloc();
        Mark::OpenRow,
        Mark::OpenRow,
        Mark::Number(1),
        Mark::Comma,
        Mark::Number(2),
        Mark::CloseRow,
        Mark::Comma,
        Mark::Number(3),
        Mark::Comma,
        Mark::OpenRow,
        Mark::CloseRow,
        Mark::CloseRow,
    ]?;
    let row = read_expression(rt.alloc(), &tokens);
    assert!(rt;
        match &row {
            Ok(Expression::Row(members)) => match members.as_slice() {
                [
                    Expression::Row(inner),
                    Expression::Number(3),
                    Expression::Row(empty)
                ] => { are_numbers(inner, 1, 2) && empty.len() == 0 }
                _ => false,
            },
            _ => false,
        }
    );
    let mut count = Count {
        pieces: 0,
        level: 0,
    };
    assert!(rt; recognize(rt.alloc(), Row(Whole), &tokens, &mut count).is_ok());
    assert!(rt; count.pieces == 6 && count.level == 0);
    Ok(())
}

#[test]
fn expressions_are_refused(rt: HostRuntime) -> Result<(), Fail> {
    let twice = vec![in rt.alloc(); Mark::Number(1), Mark::Plus, Mark::Plus, Mark::Number(1)]?;
    assert!(rt;
        matches!(
            read_expression(rt.alloc(), &twice),
            Err(Refusal::Unexpected { number: 2, .. })
        )
    );
    let beside = vec![in rt.alloc(); Mark::Number(1), Mark::Number(2)]?;
    assert!(rt;
        matches!(
            read_expression(rt.alloc(), &beside),
            Err(Refusal::Unexpected {
                number: 1,
                last: Some(Taken(Number))
            })
        )
    );
    let unfinished = vec![in rt.alloc(); Mark::OpenRow, Mark::Number(1)]?;
    assert!(rt;
        matches!(
            read_expression(rt.alloc(), &unfinished),
            Err(Refusal::EndsEarly)
        )
    );
    Ok(())
}

#[test]
fn expressions_are_stopped(rt: HostRuntime) -> Result<(), Fail> {
    let deep = vec![in rt.alloc(); Mark::Open, Mark::OpenRow, Mark::OpenRow, Mark::Number(1)]?;
    let mut count = Count {
        pieces: 0,
        level: MOST_LEVELS - 2,
    };
    assert!(rt;
        matches!(
            recognize(rt.alloc(), Row(Whole), &deep, &mut count),
            Err(Refusal::Stopped {
                number: 2,
                fault: Fault::TooDeep
            })
        )
    );
    // The second row is one row too many, and one level too deep.
    let mut count = Count {
        pieces: MOST_PIECES - 1,
        level: MOST_LEVELS - 2,
    };
    assert!(rt;
        matches!(
            recognize(rt.alloc(), Row(Whole), &deep, &mut count),
            Err(Refusal::Stopped {
                number: 2,
                fault: Fault::TooMany
            })
        )
    );
    Ok(())
}

#[test]
fn a_stack_gives_back_what_is_on_top(rt: HostRuntime) -> Result<(), Fail> {
    let mut stack = Stack::new(rt.alloc());
    stack.push(1u32)?;
    stack.push(2)?;
    assert_eq!(rt; stack.pop(), Some(2));
    assert_eq!(rt; stack.pop_or(9), 1);
    assert_eq!(rt; stack.pop_or(9), 9);
    assert_eq!(rt; stack.pop(), None);
    Ok(())
}

#[test]
fn a_row_is_pushed_with_its_first_part_on_top(rt: HostRuntime) -> Result<(), Fail> {
    let mut stack = vec![in rt.alloc(); 1u32]?;
    let step = expand(&mut stack, &[2, 3, 4])?;
    assert!(rt; matches!(step, Step::Expand));
    assert_eq!(rt; stack.as_slice(), [1, 4, 3, 2].as_slice());
    Ok(())
}
