//! Samples of the least and the greatest size and of one between, and sizes that have none.

use mg_word::{Kind, Place};
use sample_maker::{MOST_SIZE, SampleFault, sample};
use std::test::Fail;

#[test]
fn samples_have_their_clauses(rt: HostRuntime) -> Result<(), Fail> {
    let alloc = rt.alloc();
    // size, clauses, the name of the last, the last symbol and its number
    let rows = [
        (1, 1, "c01", "b01", 1),
        (2, 3, "d01", "b02", 3),
        (MOST_SIZE, 39, "d19", "b20", 39),
    ];
    for (size, clauses, name, symbol, number) in rows {
        let input = sample(alloc, size)?;
        assert_eq!(rt; input.clauses.len() as u32, clauses);
        assert_eq!(rt; input.symbols.len(), number + 1);
        assert_eq!(rt; input.symbols.find(symbol, 0, Kind::Word)?, Some(number));
        let place = Place {
            file: 0,
            line: clauses,
            column: 1,
        };
        match input.clauses.last() {
            Some(clause) => {
                assert!(rt; clause.name.text.as_slice() == name.as_bytes());
                assert_eq!(rt; clause.place, place);
            }
            None => assert!(rt; false),
        }
    }
    for size in [0, MOST_SIZE + 1] {
        assert!(rt; matches!(sample(alloc, size), Err(SampleFault::Range)));
    }
    Ok(())
}
