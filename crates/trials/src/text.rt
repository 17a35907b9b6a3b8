// What is written, and the names of the faults.
use trial_words::layout::Numbers;
use trial_words::words::get;

pub(crate) fn print(text: &str) {
    io::write_all(1, text.as_bytes());
}

pub(crate) fn print_number(n: u32) {
    io::print_decimal(1, u64::from(n));
}

pub(crate) fn say(w: &Numbers, i: u32) {
    print_number(get(w, i));
}

// Counts, each behind its text, and the end of the line.
pub(crate) fn say_counts(w: &Numbers, counts: &[(&str, u32)]) {
    for (text, i) in counts {
        print(text);
        print(" ");
        say(w, *i);
    }
    print("\n");
}

// The names of the faults, from the first on.
pub(crate) static FAULT_NAMES: [&str; 114] = [
    "an answer's first byte",
    "the number's first byte",
    "the number's second byte",
    "the number's third byte",
    "the number's last byte",
    "the last byte of a page read back",
    "the stop number",
    "the requests answered",
    "the bytes of the requests",
    "the bytes of the answers",
    "the head's size",
    "the head's branches",
    "the head's records",
    "the head's now",
    "the head's floor",
    "the last record's address",
    "the last record's moment",
    "the order of the first two records",
    "the last byte of the last record's page",
    "the last record's place row",
    "the first byte past the answers",
    "the last byte of the answer area",
    "the stop number of a refused store",
    "the head of a refused store",
    "the branch rows of a refused store",
    "the record rows of a refused store",
    "the place rows of a refused store",
    "the slab of a refused store",
    "the answer area of a refused store",
    "the refusal of a fresh store",
    "the head of a fresh store",
    "the end of the first branch of a fresh store",
    "the record rows of a fresh store",
    "the place rows of a fresh store",
    "the other branch rows of a fresh store",
    "the first byte of a date read back",
    "the second byte of a date read back",
    "the third byte of a date read back",
    "the last byte of a date read back",
    "the place of the last record, another free one",
    "the head's names",
    "the first number of the last name",
    "the second number of the last name",
    "the moment of the last name",
    "the name row behind the last",
    "the order of the first two names",
    "the moment that a naming answers with",
    "the name rows of a fresh store",
    "the name rows of a refused store",
    "the rows of a reclaim, one gone that holds a kept record",
    "the rows of a reclaim, one gone that holds a named moment",
    "the rows of a reclaim, one gone that ends at the floor",
    "the rows of a reclaim, the first gone",
    "the rows of a reclaim, a cut not taken over",
    "the rows of a reclaim, a cut taken over once only",
    "the rows of a reclaim, all kept",
    "the record rows read",
    "the record rows read where 2 refuses",
    "the record rows read where 3 refuses",
    "a mark after a revert, the page left current",
    "a mark after a revert, the blank mark gone",
    "the disk after a revert",
    "a mark after a write, the page left stale",
    "a mark after a write, the blank mark left",
    "the disk after a write, the last byte of the page",
    "a mark after a refused request",
    "the disk after a refused request",
    "the refusal of a live read behind the last page",
    "the refusal of a live read",
    "the page of a live read, that of the neighbour",
    "a live read, a page where there is none",
    "a live read, none where there is a page",
    "the last byte of the page of a live read",
    "the refusal of a copying step",
    "the count of a copying step",
    "the marks after a step, a higher page brought to date in place of the lowest",
    "a mark after a step, the page left stale",
    "a mark after a step, a blank page not marked so",
    "a mark after a step, the blank mark left on a copied page",
    "the disk after a step, the last byte of a copied page",
    "the disk after a step, the last byte of a blank page",
    "the refusal of a live read on a refused store",
    "a live read on a refused store, a page given",
    "the refusal of a step on a refused store",
    "the count of a step on a refused store",
    "a mark after a step on a refused store",
    "the disk after a step on a refused store",
    "the marks of a refused store",
    "the disk of a refused store",
    "a mark after a batch that reads",
    "the disk after a batch that reads",
    "the first row's work order",
    "the rows after a revert, its work order dropped",
    "the rows after a revert, its work order in the row that it closed",
    "the rows of a reclaim, a work order taken over with the cut",
    "the work order of the first branch of a fresh store",
    "the refusal of a list",
    "the count of a list",
    "a list, turned",
    "a list, the first row left out",
    "a list, the moment's own branch left out",
    "a list, the low byte first",
    "a list, its count without its orders",
    "a list, a byte past it written",
    "a list after a reclaim, a work order taken over with the cut",
    "a list, the work order of a revert dropped",
    "a list that does not fit, given as far as it goes",
    "a list that does not fit, its count given",
    "a list that does not fit, a byte written",
    "the refusal of a list below the floor",
    "a list above now, given",
    "the refusal of a list on a refused store",
    "the count of a list on a refused store",
    "a list on a refused store, a byte written",
];
