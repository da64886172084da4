// Waiting for descriptors.
use libc::net::POLLIN;
use libc::types::pollfd;

// What is asked of one descriptor.
fn asked(fd: i32) -> pollfd {
    pollfd {
        fd,
        events: POLLIN,
        revents: 0,
    }
}

/// Waits until one of two descriptors can be read or has ended, or for so many milliseconds. Answers which of them has;
/// none where the wait fails. A negative descriptor is passed over.
pub(crate) fn readable(first: i32, second: i32, most: u16) -> (bool, bool) {
    let mut all = [asked(first), asked(second)];
    if libc::net::poll(&mut all, i32::from(most)) > 0 {
        (all[0].revents != 0, all[1].revents != 0)
    } else {
        (false, false)
    }
}

/// Waits for so many milliseconds.
pub(crate) fn pause(most: u16) {
    readable(-1, -1, most);
}
