use crate::record::record_of;
use script::read;
use std::alloc::{AllocError, Global};
use std::test::Fail;

// The record, or what is said of bad input.
fn told(heap: Global, text: &str) -> Result<String, AllocError> {
    match read(heap, text) {
        Ok(parts) => record_of(heap, parts.as_slice()),
        Err(why) => why.to_string(heap),
    }
}

#[test]
fn bad_input(rt: HostRuntime) -> Result<(), Fail> {
    let table = [
        (
            "# none\n\n",
            "line 3: expected 'arithmetic', found the end of the input",
        ),
        ("unit\n", "line 1: expected 'arithmetic', found 'unit'"),
        (
            "\narithmetic\n",
            "line 2: expected 'amounts', 'yes-or-no', 'waits' or 'blocks', found the end of the line",
        ),
        (
            "arithmetic pence\n",
            "line 1: expected 'amounts', 'yes-or-no', 'waits' or 'blocks', found 'pence'",
        ),
        (
            "arithmetic waits 5\n",
            "line 1: expected the end of the line, found '5'",
        ),
        (
            "arithmetic amounts\nservice 9\n",
            "line 2: expected 'open', 'unit', 'load', 'strike', 'cell', 'row', 'weigh', 'table' or 'arrays', found 'service'",
        ),
        (
            "arithmetic amounts\nopen 3\n",
            "line 2: expected a whole number from 0 to 1000000, found the end of the line",
        ),
        (
            "arithmetic amounts\nopen 3 1000001\n",
            "line 2: expected a whole number from 0 to 1000000, found '1000001'",
        ),
        (
            "arithmetic amounts\nopen 3 4\nunit 2\n",
            "line 3: expected the end of the line, found '2'",
        ),
        (
            "arithmetic amounts\ncell 0 0 4294967296\n",
            "line 2: expected a whole number from 0 to 4294967295, found '4294967296'",
        ),
        (
            "arithmetic amounts\nload\ncell 0 0 x\nend\n",
            "line 3: expected a whole number from 0 to 4294967295, found 'x'",
        ),
        (
            "arithmetic amounts\nload\ncell 0 0 1 2\nend\n",
            "line 3: expected the end of the line, found '2'",
        ),
        (
            "arithmetic amounts\nload\nunit\n",
            "line 3: expected 'cell' or 'end', found 'unit'",
        ),
        (
            "arithmetic amounts\nload\ncell 0 0 1\n",
            "line 4: expected 'end', found the end of the input",
        ),
        (
            "arithmetic yes-or-no\nweigh\nfirst maybe\n",
            "line 3: expected 'yes' or 'no', found 'maybe'",
        ),
        (
            "arithmetic waits\nweigh\nsecond 0 4294967295\n",
            "line 3: expected a whole number of days from 0 to 4294967294, or 'never', found '4294967295'",
        ),
        (
            "arithmetic blocks\nweigh\nfirst 1,1;0,1,0\n",
            "line 3: expected a block such as 1,1;0,1, of whole numbers from 0 to 4294967295, found '1,1;0,1,0'",
        ),
        (
            "arithmetic amounts\nweigh\nend now\n",
            "line 3: expected the end of the line, found 'now'",
        ),
    ];
    for (text, said) in table {
        assert_eq!(rt; told(rt.alloc(), text)?.as_str(), said);
    }
    Ok(())
}

#[test]
fn calls_and_refusals(rt: HostRuntime) -> Result<(), Fail> {
    let table = [
        (
            "arithmetic amounts\ncell 0 0 0\n",
            "1. cell of sheet 0, row 0, column 0: sent back with number 1, place 0: the header has not 19 words, so no book is open.\n",
        ),
        (
            "arithmetic amounts\ntable 0\n",
            "1. table of sheet 0: sent back with number 1, place 0: the header has not 19 words, so no book is open.\n",
        ),
        (
            "arithmetic amounts\nopen 5 0\nunit\n",
            "1. open of order 5 with capacity 0: 0 sheets.\n2. unit: sent back with number 9, place 6: the new sheet is 6 places long, and the book has not so much room left.\n",
        ),
        (
            "arithmetic amounts\nopen 1 65536\nunit\n",
            "1. open of order 1 with capacity 65536: 0 sheets.\n2. unit: sheet 0.\n",
        ),
        (
            "arithmetic amounts\nopen 1 65537\n",
            "1. open of order 1 with capacity 65537: sent back with number 1, place 2: the capacity is above 65536.\n",
        ),
        (
            "arithmetic waits\nopen 0 9\nopen 1025 9\n",
            "1. open of order 0 with capacity 9: sent back with number 2, place 0: the order is 0, and not from 1 to 1024.\n2. open of order 1025 with capacity 9: sent back with number 2, place 1025: the order is 1025, and not from 1 to 1024.\n",
        ),
        (
            "arithmetic yes-or-no\nopen 1024 1025\nunit\ncell 0 1023 1023\n",
            "2. unit: sheet 0.\n3. cell of sheet 0, row 1023, column 1023: yes.\n",
        ),
        (
            "arithmetic amounts\nopen 1 99\nunit\nunit\nunit\nunit\nunit\nunit\nunit\nunit\nunit\nunit\nunit\nunit\nunit\nunit\nunit\nunit\nunit\n",
            "17. unit: sheet 15.\n18. unit: sent back with number 7, place 16: the book has 16 sheets, and can have no more.\n",
        ),
        (
            "arithmetic amounts\nopen 3 9\nload\ncell 0 0 1\ncell 0 0 2\nend\n",
            "2. load of 2 entries: sent back with number 8, place 1: entry 1, counted from 0, is outside the table or not after the one before it.\n",
        ),
        (
            "arithmetic amounts\nopen 3 3\nunit\nopen 3 4\nunit\narrays\n",
            "2. unit: sent back with number 9, place 4: the new sheet is 4 places long, and the book has not so much room left.\n3. open of order 3 with capacity 4: 0 sheets.\n4. unit: sheet 0.\n5. arrays: 1 sheet.\n   header: 3, 1, 0, 4, 0, 0, 0, 0, 0, 0, 0, 0, 0, 0, 0, 0, 0, 0, 0\n   sheet 0, index: 4, 4, 4, 4\n   sheet 0, figures: 1, 1, 1, 0\n",
        ),
        (
            "arithmetic amounts\nopen 1 2\nstrike\nunit\narrays\n",
            "2. strike: sent back with number 6, place 0: the book has no sheet 0.\n3. unit: sheet 0.\n4. arrays: 1 sheet.\n   header: 1, 1, 0, 2, 0, 0, 0, 0, 0, 0, 0, 0, 0, 0, 0, 0, 0, 0, 0\n   sheet 0, index: 2, 2\n   sheet 0, figures: 1, 0\n",
        ),
        (
            "arithmetic amounts\nopen 2 9\nrow 0 0\nload\ncell 1 0 7\nend\nrow 0 1\nrow 0 2\n",
            "2. row of sheet 0, row 0: sent back with number 6, place 0: the book has no sheet 0.\n3. load of 1 entry: sheet 0.\n4. row of sheet 0, row 1: from 3 up to 4; columns 0; figures 7.\n5. row of sheet 0, row 2: sent back with number 8, place 0: the table has no such row.\n",
        ),
        (
            "arithmetic blocks\nweigh\nsecond 1,0;1,1\nfirst 1,1;0,1\nend\nweigh\nend\n",
            "1. weigh of (1 1; 0 1) against (1 0; 1 1): (2 1; 1 1).\n2. weigh of none against none: (0 0; 0 0).\n",
        ),
    ];
    for (text, end) in table {
        let record = told(rt.alloc(), text)?;
        assert!(rt; record.ends_with(end), "{}", text);
    }
    Ok(())
}
