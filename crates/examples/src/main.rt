// Runs the rows of the table (crate `table`) through the code and prints what each answers.
#![tactic(auto)]

mod calls;
mod papers;
mod say;

use calls::Desk;

// E3 leaves the machine fresh, and E5 goes on where E4 ends.
fn e3_to_e5(rt: HostRuntime) {
    let mut desk = Desk::fresh(rt);
    desk.order(b"\nE3  order E1, fresh machine: ", 1500, 0);
    desk.fund(b"\nE4  E2: ", 2000);
    desk.order(b"; order E1: ", 1500, 0);
    desk.order(b"; again: ", 1500, 0);
    desk.bytes();
    desk.order(b"\nE5  then amount 1,501, sequence 0: ", 1501, 0);
    desk.order(b"; sequence 1: ", 1501, 1);
    desk.order(b"; amount 1,500, sequence 1: ", 1500, 1);
}

// 2,001 first: it leaves the machine as E2 does.
fn e6(rt: HostRuntime) {
    let mut desk = Desk::fresh(rt);
    desk.fund(b"\nE6  E2: ", 2000);
    desk.order(b"; 2,001: ", 2001, 0);
    desk.order(b"; 2,000: ", 2000, 0);
}

fn e7(rt: HostRuntime) {
    let mut desk = Desk::fresh(rt);
    desk.fund(b"\nE7  E2: ", 2000);
    desk.order(b"; order E1: ", 1500, 0);
    desk.certificate(b"; votes 0, 1, 2: ", 1500, 0, &[0, 1, 2]);
    desk.bytes();
    desk.account(b"\n    account 2: ", 2);
    desk.account(b"\n    account 7: ", 7);
    desk.certificate(b"\n    again: ", 1500, 0, &[0, 1, 2]);
}

// E8 leaves the machine as E4 does, so E7 with four votes can follow.
fn e8(rt: HostRuntime) {
    let mut desk = Desk::fresh(rt);
    desk.fund(b"\nE8  E2: ", 2000);
    desk.order(b"; order E1: ", 1500, 0);
    desk.certificate(b"; votes 0, 1: ", 1500, 0, &[0, 1]);
    desk.certificate(b"; 0, 1, 1: ", 1500, 0, &[0, 1, 1]);
    desk.certificate(b"; 0, 1, 4: ", 1500, 0, &[0, 1, 4]);
    desk.certificate(b"\nE7  with votes 0 to 3: ", 1500, 0, &[0, 1, 2, 3]);
}

fn e9(rt: HostRuntime) {
    let mut desk = Desk::fresh(rt);
    desk.certificate(
        b"\nE9  E7's certificate on a fresh machine: ",
        1500,
        0,
        &[0, 1, 2],
    );
    desk.bytes();
    desk.account(b"\n    account 2: ", 2);
    desk.fund(b"\n    then E2: ", 2000);
    desk.account(b"\n    account 2: ", 2);
}

// E10 leaves the machine fresh.
fn e10_and_e11(rt: HostRuntime) {
    let mut desk = Desk::fresh(rt);
    desk.certificate(
        b"\nE10 a certificate of sequence 1 on a fresh machine: ",
        1500,
        1,
        &[0, 1, 2],
    );
    desk.fund(b"\nE11 E2: ", 2000);
    desk.fund(b"; again: ", 2000);
}

fn e12(rt: HostRuntime, amount: u64) {
    let mut desk = Desk::fresh(rt);
    calls::read_body(rt, b"; body read: ", amount);
    calls::write_body(rt, b"; body written: ", amount);
    calls::read_funding(rt, b"\n    funding order read: ", amount);
    calls::write_funding(rt, b"; funding order written: ", amount);
    desk.fund(b"\n    funding order: ", amount);
    desk.fund(b"; E2: ", 2000);
    desk.order(b"; order: ", amount, 0);
    desk.certificate(b"; certificate: ", amount, 0, &[0, 1, 2]);
}

fn main(rt: HostRuntime) {
    calls::write_body(
        rt,
        b"E1  body 2 to account 7, 1,500, sequence 0, no note: ",
        1500,
    );
    calls::read_body(rt, b"\n    read: ", 1500);
    calls::write_funding(rt, b"\nE2  funding 1 to account 2, 2,000: ", 2000);
    calls::read_funding(rt, b"\n    read: ", 2000);
    e3_to_e5(rt);
    e6(rt);
    e7(rt);
    e8(rt);
    e9(rt);
    e10_and_e11(rt);
    say::number(rt, b"\nE12 amount ", 0);
    e12(rt, 0);
    say::number(rt, b"\nE12 amount ", 1000000001);
    e12(rt, 1000000001);
    say::text(rt, b"\n");
}
