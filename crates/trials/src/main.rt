// The store against a plain reference in code: every short list of requests over small tables, many long ones, and seeded faults.
#![tactic(auto)]

mod families;
mod report;
mod text;

use families::{FAMILIES, Family, SETTING_BACK, Sizes, WITH_NAMES, WITHOUT_NAMES};
use report::{report, say_all, say_fault, say_weekly};
use text::{FAULT_NAMES, print, print_number};
use trial_turns::family;
use trial_weekly::{BRANCH_ROWS, ways};
use trial_words::layout::{
    BASE, BRANCH_LENGTH, BUDGET_SEED, CALLED, CHANGES, DISK_LENGTH, FAULT, FIRST, MODE,
    NAME_NUMBERS, Numbers, ORDER_SEED, SEED, SIZE, SLAB_LENGTH,
};
use trial_words::words::{put, put_four, put_two};

// A table of numbers, all zero.
fn numbers() -> Numbers {
    [0; 5632]
}

// The sizes and the lengths lent.
fn set_sizes(w: &mut Numbers, s: Sizes) {
    put_four(w, SIZE, s.pages, s.branches, s.records, s.places);
    put_four(
        w,
        BRANCH_LENGTH,
        s.branches % 65536 * 4,
        s.records % 65536 * 3,
        s.places,
        NAME_NUMBERS,
    );
    put(w, SLAB_LENGTH, s.places % 65536 * 256);
    put_two(w, DISK_LENGTH, s.pages % 65536 * 256, s.pages);
}

// What the lists are made by.
fn set_family(w: &mut Numbers, f: &Family) {
    put_four(w, MODE, f.mode as u32, f.letters, f.length, f.lists);
    put(w, FIRST, f.first);
    put(w, CALLED, f.called);
    put(w, BASE, f.base);
    put(w, CHANGES, u32::from(f.changes));
    set_sizes(w, f.store);
}

// All lists of each family, and a line for each name.
fn run_families(w: &mut Numbers) {
    for f in &FAMILIES {
        set_family(w, f);
        family(w);
        if let Some(name) = f.name {
            report(w, name);
        }
    }
}

// Whether a fault is in what a batch on a changed store leaves.
fn is_in_refused(fault: u32) -> bool {
    matches!(fault, 23..=29 | 49 | 58 | 59 | 82..=89 | 112..=114)
}

// Faults from the 41st on are of names, from the 50th on of reclaims, from the 57th on of the record rows read, from the 60th on of the
// live disk, from the 92nd on of work orders, where the first ones of these two are of an operator who sets back.
fn fault_family(fault: u32) -> &'static Family {
    match fault {
        41..=49 => &WITH_NAMES,
        50..=56 | 60..=81 | 92..=95 | 97..=111 => &SETTING_BACK,
        _ => &WITHOUT_NAMES,
    }
}

// All lists of two letters of 18, or of three of the 10 with names, or of an operator who sets back, with a fault in what the store gave.
fn all_faults(w: &mut Numbers) {
    for (fault, name) in (1..).zip(FAULT_NAMES) {
        set_family(w, fault_family(fault));
        put(w, FAULT, fault);
        put(w, CHANGES, u32::from(is_in_refused(fault)));
        family(w);
        say_fault(w, name);
    }
}

// A hundred years of weekly setting-back.
fn weekly(behind: u32) {
    let mut w = numbers();
    trial_weekly::run(&mut w, behind);
    say_weekly(&w, behind);
}

// The same branches where those on the way from now to the first stay.
fn say_ways() {
    print("weekly, where the branches on the way to the first stay: ");
    print_number(BRANCH_ROWS);
    print(" of them after ");
    print_number(ways::full_after(BRANCH_ROWS));
    print(" weeks\n");
}

fn main() {
    let mut w = numbers();
    put(&mut w, SEED, 20260);
    put(&mut w, BUDGET_SEED, 20261);
    put(&mut w, ORDER_SEED, 20262);
    run_families(&mut w);
    say_all(&w);
    weekly(4);
    weekly(52);
    say_ways();
    all_faults(&mut w);
}
