//! What the program is made of: a program is no library, so these crates offer its calls.

pub use command_words::command_of;
pub use event_script::{BadLine, Shown};
pub use file_view::{
    Form, Rows, ViewFault, Wanted, facts_of, kind_of, put_copies, put_log, put_page, put_record,
    read_file, show_file,
};
pub use open_database::{OpenCall, OpenEnd, open_folder};
pub use saved_files::{Source, put_in_place, restore_volume_with_log, save_files};
pub use script_run::{finish_script, run_script};
pub use system_files::{
    ClaimFault, Escaped, EscapedText, FileIdentity, Kept, Noted, Notes, RetryWouldBlock,
    SystemFiles, SystemFolder, copy_id, is_in_use, kept_at,
};
