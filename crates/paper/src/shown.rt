// A line of output: the case, the value worked and the paper's value.
use std::io;

fn signed(rt: &HostRuntime, v: i64) -> io::Result<()> {
    print!(rt; "{v}")
}

pub(crate) fn line(
    rt: &HostRuntime,
    what: &[u8],
    more: &[u8],
    worked: i64,
    paper: i64,
) -> io::Result<()> {
    rt.write_all(what)?;
    rt.write_all(more)?;
    rt.write_all(b": worked ")?;
    signed(rt, worked)?;
    rt.write_all(b", paper ")?;
    signed(rt, paper)?;
    rt.write_all(b"\n")
}
