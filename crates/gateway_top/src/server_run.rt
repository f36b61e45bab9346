//! A run of `serve`: it opens over its files, and then serves connections. The definitions are those of
//! `specs/Runs.antt`.
ghost use Rattle.std.specs.Prelude.{◌≡◌, ◌≤◌, [], false, IfOk, IsErr, IsOk, OnErr};
ghost use Rattle.gw_base.specs.Changes.{change};
ghost use Rattle.gw_base.specs.Connections.{Connections};
ghost use Rattle.gw_base.specs.Count.{Rose};
ghost use Rattle.gateway_server.specs.Log.{IsLawful, Leaves};
ghost use Rattle.gateway_server.specs.Serving.{Tells, failures};
ghost use Rattle.gateway_top.specs.Runs.{RunsServer};
ghost use Rattle.gateway_top.specs.Serving.{HasCounted, ServedBy};
ghost use Rattle.command_words.specs.Windowed.{HasWindow};
ghost use Rattle.command_words.specs.Works.{server_of};

use crate::ending::ended;
use command_words::Server;
use file_commands::{DONE, Exit, setting};
use gateway_core::{Gateway, Setting};
use gateway_server::{serve, what_is_well_formed_is_taken_law};
use gw_base::{Bytes, Clock, Door, Failed, Files, Sink};
use http_talk::HeadReader;
use std::alloc::{AllocError, Global};

// Serves so many connections over a setting, or all that come. All memory but that for what is posted is taken before
// the first one.
fn served<D: Door, C: Clock>(
    alloc: Global,
    setting: Setting,
    connections: u32,
    door: &mut D,
    clock: &mut C,
) -> Result<Result<(), Failed>, AllocError>
    requires absent { (D.beside door.old).present ≡ false }
    ensures memory { OnErr result ((door.new ≡ door.old) × (clock.new ≡ clock.old)) }
    ensures served { IfOk result (λ end. (told : Connections) → Tells (D.told door.old) (D.beside door.old) told
        → ServedBy (IsLawful (Rose (D.faults door.old) (D.faults door.new)) setting) (Leaves setting) (IsOk end)
        connections [] told (change C.told C.faults clock.old clock.new) (D.beside door.new)) }
    ensures causes { IfOk result (λ end. (told : Connections) → Tells (D.told door.old) (D.beside door.old) told
        → HasCounted setting [] told (D.beside door.new) (failures end) (change D.told D.faults door.old door.new)
        (change C.told C.faults clock.old clock.new)) }
    ensures absent { (D.beside door.new).present ≡ false }
    ensures failed { IfOk result (λ end. IsErr end → Rose (D.faults door.old) (D.faults door.new)) }
    ensures counts { (D.faults door.old ≤ D.faults door.new) × (C.faults clock.old ≤ C.faults clock.new) }
{
    let mut gate = Gateway::start(alloc, setting)?;
    let mut reader = HeadReader::make(alloc)?;
    let mut body = Bytes::new(alloc);
    Ok(serve(
        alloc,
        &mut gate,
        &mut reader,
        &mut body,
        door,
        clock,
        connections,
    ))
}

/// Serves over the files, and answers the status: 0 where so many connections were served or none is to come, 74 where
/// the files failed or the door, 71 for want of memory before the first connection.
pub fn run_server<F: Files, D: Door, C: Clock, E: Sink>(
    alloc: Global,
    server: &Server<'_>,
    files: &mut F,
    door: &mut D,
    clock: &mut C,
    err: &mut E,
) -> u8
    requires window { HasWindow server.now.scope.from server.now.scope.days }
    requires absent { (D.beside door.old).present ≡ false }
    ensures run { RunsServer (server_of server.now) [] result (change F.told F.faults files.old files.new)
        (change E.told E.faults err.old err.new) (record {
          output = change D.told D.faults door.old door.new;
          before = D.beside door.old;
          now = D.beside door.new;
          clock = change C.told C.faults clock.old clock.new;
        }) }
    ensures worded { ¬ (result ≡ 2) }
    ensures absent { (D.beside door.new).present ≡ false }
    ensures files { F.told files.new ≡ F.told files.old }
    ensures beside { E.beside err.new ≡ E.beside err.old }
    ensures counts { (F.faults files.old ≤ F.faults files.new) × (E.faults err.old ≤ E.faults err.new)
        × (D.faults door.old ≤ D.faults door.new) × (C.faults clock.old ≤ C.faults clock.new) }
{
    what_is_well_formed_is_taken_law();
    let setting = match setting(alloc, files, &server.scope, Some(server.keep)) {
        Ok(setting) => setting,
        Err(exit) => return ended(err, &exit),
    };
    match served(alloc, setting, server.connections, door, clock) {
        Ok(Ok(())) => DONE,
        Ok(Err(Failed)) => ended(err, &Exit::Failed),
        Err(AllocError) => ended(err, &Exit::Memory),
    }
}
