// Where scripts come from and where lines go to: sources and sinks of bytes, in memory and standard ones.
#![tactic(auto)]

mod sink;
mod source;
mod standard;
mod whole;

pub use sink::{MemorySink, Sink, SinkError};
pub use source::{MemorySource, Source, SourceFault};
pub use standard::{StdSink, StdSource};
pub use whole::{ReadError, read_front, write_whole};

#[cfg(test)]
mod tests {
    use super::*;
    use std::test::Fail;
    use vb_list::Items;

    #[test]
    fn bytes_go_from_a_source_to_a_sink(rt: HostRuntime) -> Result<(), Fail> {
        let mut source = MemorySource::new(rt.alloc(), Items::of(rt.alloc(), b"hello")?);
        source.fail_call(4)?;
        let mut sink = MemorySink::new(rt.alloc());
        let front = read_front(rt.alloc(), &mut source, 3)?;
        assert_eq!(rt; write_whole(&mut sink, front.slice()), Ok(()));
        assert_eq!(rt; sink.bytes(), b"hel".as_slice());
        let rest = read_front(rt.alloc(), &mut source, 9)?;
        assert_eq!(rt; rest.slice(), b"lo".as_slice());
        assert!(rt; read_front(rt.alloc(), &mut source, 9).is_err());
        sink.fail_call(1)?;
        assert_eq!(rt; write_whole(&mut sink, b"no"), Err(SinkError::Failed));
        assert_eq!(rt; sink.bytes(), b"hel".as_slice());
        Ok(())
    }
}
