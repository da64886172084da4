// The ticker, and the host's words.
use run_drive::{Host, Ticker};
use run_host::{ClockTicker, StdHost};

#[test]
fn a_ticker_waits_before_each_answer(rt: HostRuntime) {
    let mut ticker = ClockTicker::new(rt);
    let _ = ticker.next();
    assert!(rt; ticker.next() >= 10_000_000);
    assert!(rt; ticker.faults() == 0);
}

#[test]
fn a_host_has_words_by_the_clock(rt: HostRuntime) {
    let mut host = StdHost::new(rt);
    let first = host.word();
    let mut ticker = host.ticker();
    let _ = ticker.next();
    assert!(rt; host.word() != first);
}
