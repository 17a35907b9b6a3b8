// What the trials counted, in words.
use crate::text::{print, print_number, say, say_counts};
use trial_weekly::{BRANCH_ROWS, WEEKS};
use trial_words::layout::{
    ABSENT, BATCHES, BELOW, BROKEN, BROKEN_BEHIND, DESPITE_DISK, DIFFER, FAULTS, FOR_NAME,
    FOR_RECORD, LARGEST, LEFT_STALE, LISTED, LISTS_GIVEN, LISTS_REFUSED, LIVE_READS, LONGEST,
    Numbers, ORDER_PAST, ORDER_REFUSED, ORDERS_TAKEN, READ, RUN, SEEN, SHORTER, STEPS, TAKEN_OVER,
    TOLD, TURNED, TURNED_BLANK, UNREAD, WENT, WRONG,
};
use trial_words::words::{get, plus, put, put_four};

// A family's line, and its counts start again.
pub(crate) fn report(w: &mut Numbers, name: &str) {
    print(name);
    print(": ");
    say(w, RUN);
    print(" lists, ");
    say(w, BATCHES);
    print(" batches, ");
    say(w, READ);
    print(" snapshots read back, ");
    end_line(w);
}

// A fault's line, and the counts start again.
pub(crate) fn say_fault(w: &mut Numbers, name: &str) {
    print("a fault in ");
    print(name);
    print(": put into ");
    say(w, FAULTS);
    print(" lists, ");
    end_line(w);
}

fn end_line(w: &mut Numbers) {
    say(w, DIFFER);
    print(" differ\n");
    put_four(w, RUN, 0, 0, 0, 0);
    put(w, READ, 0);
    put(w, FAULTS, 0);
}

// What all families counted.
pub(crate) fn say_all(w: &Numbers) {
    say_seen(w);
    say_told(w);
    say_below(w);
    say_settled(w);
    say_broken(w);
    say_live(w);
    say_orders(w);
    say_lists(w);
}

fn say_seen(w: &Numbers) {
    print("refusals and stops 1 to 18 came up:");
    for k in 1..19u32 {
        print(" ");
        say(w, plus(SEEN, k));
    }
    print("\n");
}

// How often a place was taken where each other choice would have given another one.
fn say_told(w: &Numbers) {
    let counts = [
        ("a place was taken that is not the largest free one", TOLD),
        (", not the one behind the last in use", TOLD + 1),
        (
            ", not the first that was free when the batch began",
            TOLD + 2,
        ),
        (", below the one that the batch took last", TOLD + 3),
    ];
    say_counts(w, &counts);
}

// How often a moment below the floor was accepted, since it is named.
fn say_below(w: &Numbers) {
    let counts = [
        ("a moment below the floor was reverted to", BELOW + 3),
        (", read", BELOW + 4),
        (", named again", BELOW + 6),
    ];
    say_counts(w, &counts);
}

// What reclaims left of the branches.
fn say_settled(w: &Numbers) {
    let counts = [
        ("in a reclaim a branch went", WENT),
        (", a cut was taken over", TAKEN_OVER),
        (", a branch stayed for a name only", FOR_NAME),
        (", for a record only", FOR_RECORD),
    ];
    say_counts(w, &counts);
}

// Where the table checks refused a changed store that has records.
fn say_broken(w: &Numbers) {
    let counts = [
        ("3 refused at a record row with a wrong address", BROKEN + 1),
        (", a moment above now", BROKEN + 2),
        (", a moment in no branch", BROKEN + 3),
        (", a place outside", BROKEN + 6),
        (", the place of another", BROKEN + 7),
        (", below the row before", BROKEN + 4),
        (", the same as the row before", BROKEN + 5),
        ("; a row behind it was wrong too", BROKEN_BEHIND),
        ("; 3 refused after all rows", BROKEN + 8),
        ("; 2 refused before a record was read", UNREAD),
    ];
    say_counts(w, &counts);
}

// The live reads by what they gave, and the copying steps.
fn say_live(w: &Numbers) {
    let reads = [
        ("live reads gave a page of the disk", LIVE_READS),
        (", a blank one", LIVE_READS + 1),
        (", a stored page", LIVE_READS + 2),
        (", none stored", LIVE_READS + 3),
        (", a refusal", LIVE_READS + 4),
    ];
    say_counts(w, &reads);
    let steps = [
        ("copying steps", STEPS),
        (", pages brought to date", TURNED),
        (", of these as blank", TURNED_BLANK),
        (", left stale by the budget", LEFT_STALE),
    ];
    say_counts(w, &steps);
}

// The accepted reverts by their work order, and where check 2 looked at one.
fn say_orders(w: &Numbers) {
    let counts = [
        ("a revert was accepted with the work order 0", ORDERS_TAKEN),
        (", 1", ORDERS_TAKEN + 1),
        (", 255", ORDERS_TAKEN + 2),
        (", 256", ORDERS_TAKEN + 3),
        (", 65535", ORDERS_TAKEN + 4),
        (", another", ORDERS_TAKEN + 5),
        ("; 2 refused the first row's work order", ORDER_REFUSED),
        (", one above 65535", ORDER_REFUSED + 1),
        (
            "; one above 65535 past the count was not refused",
            ORDER_PAST,
        ),
    ];
    say_counts(w, &counts);
}

// How many lists of work orders were given, of those with so many orders and more, up to another number.
fn given_of(w: &Numbers, from: u32, to: u32) -> u32 {
    (from..to).fold(0, |count, n| plus(count, get(w, plus(LISTS_GIVEN, n))))
}

// The lists of work orders by their length, and those that were refused.
fn say_lists(w: &Numbers) {
    let lengths = [
        ("lists of work orders given ", 1, 17),
        (", of 1 order ", 1, 2),
        (", of 2 ", 2, 3),
        (", of 3 ", 3, 4),
        (", of 4 to 7 ", 4, 8),
        (", of 8 to 16 ", 8, 17),
    ];
    for (text, from, to) in lengths {
        print(text);
        print_number(given_of(w, from, to));
    }
    say_refused_lists(w);
}

fn say_refused_lists(w: &Numbers) {
    let refused = [
        ("; refused with 8", LISTS_REFUSED + 8),
        (", with 9", LISTS_REFUSED + 9),
        (", with 14", LISTS_REFUSED + 14),
        (", by the table checks with 1", LISTS_REFUSED + 1),
        (", with 2", LISTS_REFUSED + 2),
        (", with 3", LISTS_REFUSED + 3),
        ("; given where 18 refuses a batch", DESPITE_DISK),
    ];
    say_counts(w, &refused);
    let shorter = [
        (
            "lists given at a moment that has lost rows of its way in reclaims",
            SHORTER,
        ),
        (", rows absent from them", ABSENT),
    ];
    say_counts(w, &shorter);
}

// How many requests were refused with another number than 7.
fn other_refusals(w: &Numbers) -> u32 {
    (1..32u32)
        .filter(|k| *k != 7)
        .fold(0, |count, k| plus(count, get(w, plus(SEEN, k))))
}

// A hundred years of weekly setting-back.
pub(crate) fn say_weekly(w: &Numbers, behind: u32) {
    print("weekly, ");
    print_number(WEEKS);
    print(" weeks, ");
    print_number(BRANCH_ROWS);
    print(" branch rows, a reclaim every 4 weeks, the floor ");
    print_number(behind);
    print(" weeks behind: at most ");
    say(w, LARGEST);
    print(" branches, refused with 7: ");
    say(w, SEEN + 7);
    print(", with another number: ");
    print_number(other_refusals(w));
    print(", ");
    say(w, READ);
    print(" pages read back, ");
    say(w, LISTED);
    print(" lists of work orders, the longest of ");
    say(w, LONGEST);
    print(", ");
    say(w, WRONG);
    print(" differ\n");
}
