// What is told to people on standard error. Where that fails there is nobody to tell.
use slices::page::Page;
use std::io::Write;

// A page written as a message.
pub fn warn(rt: HostRuntime, page: &Page) {
    let _ = rt.stderr().write_all(page.text());
}
