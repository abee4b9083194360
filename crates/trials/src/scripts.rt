use script::read;
use std::alloc::{AllocError, Global};
use std::test::Fail;

// What is said of a text; of a script, nothing.
fn told(heap: Global, text: &str) -> Result<String, AllocError> {
    match read(heap, text) {
        Ok(_) => Ok(String::new(heap)),
        Err(why) => why.to_string(heap),
    }
}

#[test]
fn texts(rt: HostRuntime) -> Result<(), Fail> {
    let table = [
        (
            "arithmetic amounts\nadd 0\n",
            "line 2: expected a whole number from 0 to 4294967295, found the end of the line",
        ),
        (
            "arithmetic amounts\nadd 0 1 2\n",
            "line 2: expected the end of the line, found '2'",
        ),
        (
            "arithmetic amounts\ncolumn_working 0 1\n",
            "line 2: expected the end of the line, found '1'",
        ),
        (
            "arithmetic amounts\nrow_working 0\nin\n",
            "line 3: expected a whole number from 0 to 4294967295, found the end of the line",
        ),
        (
            "arithmetic amounts\nrow_working 0\nfirst 1\n",
            "line 3: expected 'in' or 'end', found 'first'",
        ),
        (
            "arithmetic amounts\ncolumn_working 0\nin 1\narithmetic waits\n",
            "line 4: expected 'in' or 'end', found 'arithmetic'",
        ),
        (
            "arithmetic amounts\nunit\narithmetic yes-or-no\nload\ncell 0 0 1\n",
            "line 5: expected 'yes' or 'no', found '1'",
        ),
    ];
    for (text, said) in table {
        assert_eq!(rt; told(rt.alloc(), text)?.as_str(), said, "{}", text);
    }
    Ok(())
}
