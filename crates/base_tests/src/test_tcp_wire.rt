//! Both ends of a connection of loopback, on one thread.
use mail_wire::{Dial, Failed, Fault, WireFailure, give_all, take_piece};
use std::io::{ErrorKind, Read, Write};
use std::net::{Shutdown, TcpListener, TcpStream};
use std::test::Fail;
use std::time::Duration;
use tcp_wire::{TcpDial, TcpWire};

#[test]
fn a_connection_is_a_wire_that_waits_no_longer_than_it_may(rt: HostRuntime) -> Result<(), Fail> {
    let listener = TcpListener::bind(&rt, "127.0.0.1:0")?;
    let mut client = TcpStream::connect(&rt, listener.local_addr()?)?;
    let (stream, _) = listener.accept()?;
    let mut wire = TcpWire::new(rt.alloc(), stream, Duration::from_millis(50))?;
    let mut buffer = [0; 8];

    client.write_all(b"NOOP\r\n")?;
    assert_eq!(rt; take_piece(&mut wire, &mut buffer), Ok(6));
    assert!(rt; buffer.starts_with(b"NOOP\r\n"));
    assert_eq!(rt; give_all(&mut wire, b"+OK\r\n"), Ok(()));
    assert_eq!(rt; wire.finish(), Ok(()));
    let mut reply = [0; 5];
    client.read_exact(&mut reply)?;
    assert!(rt; reply.starts_with(b"+OK\r\n"));
    assert!(rt; wire.failure().is_none());

    // The client says nothing: the call fails, and tells so.
    assert_eq!(rt; take_piece(&mut wire, &mut buffer), Err(Fault::Wire));
    let Some(WireFailure::Input(error)) = wire.failure() else {
        return Err(Fail::new("no failure of the input"));
    };
    assert!(rt; matches!(error.kind(), ErrorKind::WouldBlock | ErrorKind::TimedOut));

    // That leaves the wire as it was, up to its end.
    client.write_all(b"QUIT")?;
    client.shutdown(Shutdown::Write)?;
    assert_eq!(rt; take_piece(&mut wire, &mut buffer), Ok(4));
    assert_eq!(rt; take_piece(&mut wire, &mut buffer), Ok(0));
    Ok(())
}

#[test]
fn a_server_is_dialled_by_its_host_and_port(rt: HostRuntime) -> Result<(), Fail> {
    let listener = TcpListener::bind(&rt, "127.0.0.1:0")?;
    let port = listener.local_addr()?.port();
    let mut dial = TcpDial::new(rt.alloc(), &rt);

    let place = format!(in rt.alloc(); "127.0.0.1:{port}")?;
    let mut wire = dial.dial(place.as_str())?;
    let (mut server, _) = listener.accept()?;
    server.write_all(b"220 x\r\n")?;
    let mut buffer = [0; 8];
    assert_eq!(rt; take_piece(&mut wire, &mut buffer), Ok(7));
    assert_eq!(rt; give_all(&mut wire, b"QUIT\r\n"), Ok(()));
    assert_eq!(rt; wire.finish(), Ok(()));
    let mut line = [0; 6];
    server.read_exact(&mut line)?;
    assert!(rt; line.starts_with(b"QUIT\r\n"));
    dial.hand_back(wire);
    assert!(rt; dial.wire_failure().is_none() && dial.failure().is_none());

    // The brackets of an address are no part of it.
    let place = format!(in rt.alloc(); "[127.0.0.1]:{port}")?;
    let bracketed = dial.dial(place.as_str())?;
    dial.hand_back(bracketed);

    // Nobody listens there any more.
    drop(listener);
    assert!(rt; matches!(dial.dial(place.as_str()), Err(Failed::Outside)));
    assert!(rt;
        dial.failure()
            .is_some_and(|error| error.kind() == ErrorKind::ConnectionRefused)
    );
    Ok(())
}

#[test]
fn what_names_no_server_is_not_dialled(rt: HostRuntime) -> Result<(), Fail> {
    let mut dial = TcpDial::new(rt.alloc(), &rt);
    for place in [
        "127.0.0.1:smtp",
        "127.0.0.1:65536",
        "[127.0.0.1",
        "[127.0.0.1]25",
    ] {
        assert!(rt; matches!(dial.dial(place), Err(Failed::Outside)));
        assert!(rt;
            dial.failure()
                .is_some_and(|error| error.kind() == ErrorKind::InvalidInput)
        );
    }
    Ok(())
}
