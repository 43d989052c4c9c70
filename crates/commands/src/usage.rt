// How the program is started.
pub fn usage(rt: HostRuntime) {
    let _ = rt.stderr().write_all(
        b"\
cartlozenge machine STATE                   a settlement machine; calls come on standard input, one line each\n\
cartlozenge ledger STATE                    the purchase ledger, likewise\n\
cartlozenge fresh machine F NUMBER STATE    a new state file; one that is there is left alone\n\
cartlozenge fresh ledger F STATE            likewise\n\
cartlozenge write body|order SENDER account|ledger NUMBER AMOUNT SEQUENCE NOTE [SIGNATURE]\n\
cartlozenge write certificate F BODY VOTES\n\
cartlozenge write funding INDEX ACCOUNT AMOUNT\n\
cartlozenge read MESSAGE [F]                what a message says\n\
        ",
    );
}
