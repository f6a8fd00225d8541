//! What `help` tells.

/// A line for each command of an operator, and then a line for each call.
pub const HELP: &str = "\
    checkpoint: write each dirty page, and make a whole checkpoint\n\
    flush: write each dirty page\n\
    copy: make a whole full copy, behind a checkpoint\n\
    copy on COPY: make a whole incremental copy on a complete one, behind a checkpoint\n\
    status: pages, records, what is open and dirty, the last checkpoint, and complete copies\n\
    help: these lines\n\
    quit: close the database, as the end of the input does\n\
    begin: begin a transaction\n\
    set TXN PAGE SLOT NUMBER: put a number into a slot\n\
    add TXN PAGE SLOT NUMBER: add to the number in a slot\n\
    read PAGE SLOT: the number in a slot\n\
    save TXN: name a savepoint\n\
    undoto TXN SAVEPOINT: take one change back, until `reached`\n\
    commit TXN: commit, and force the log\n\
    abort TXN: begin to roll back\n\
    undo TXN: take one change back, until `ended`\n\
    force: force the log\n\
    extend PAGES: grow the volume to so many pages\n\
    wbegin PAGE: begin to write a page\n\
    wend PAGE: end the write of a page\n\
    ckpt: begin a checkpoint\n\
    gather: one step of it, until `done`\n\
    endckpt: end the checkpoint\n\
    full: begin a full copy\n\
    inc COPY: begin an incremental copy on a complete one\n\
    take COPY PAGE: have a copy take a page\n\
    seal COPY: make a copy complete\n\
    drop COPY: drop a copy that is not complete\n\
    repair COPY PAGE: rebuild a page from a complete copy and the log\n";
