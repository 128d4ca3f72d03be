//! Runs on a store in memory.

ghost use Rattle.std.specs.Prelude.{◌≡◌, ◌≤◌};
ghost use Rattle.waff_plan.specs.Bound.{IsWorkers};

use std::alloc::Global;
use std::marker::Sync;
use std::process::Abort;
use std::rt::Clock;
use std::sync::{Mutex, Wait};
use std::thread::Threads;
use waff_inputs::{accept, accept_over_layout, read_numbered};
use waff_model::Cell;
use waff_record::Recorded;
use waff_run::{
    Broken, Pace, Places, RunError, RunFiles, Settings, Spot, Store, StoreFault, run_on,
    silent_hands,
};

/// Files of 64 bytes each, without a lock that waits: a file that somebody else holds is a fault, since the tree
/// lets nobody run beside who writes it.
#[derive(Drop)]
struct Memory {
    files: Vec<Mutex<Vec<u8>>>,
}

impl Memory {
    fn of(rt: &impl Abort, alloc: Global, count: usize) -> Memory {
        let mut files = Vec::new(alloc);
        for _ in 0..count {
            let file = vec![in alloc; 0u8; 64].expect(rt, "memory");
            files.push(Mutex::new(file)).expect(rt, "memory");
        }
        Memory { files }
    }

    fn byte<R: Wait>(&self, rt: &R, file: usize, at: usize) -> Option<u8> {
        let guard = self.files.get(file)?.lock(rt);
        guard.get(at).copied()
    }
}

impl Store for Memory {
    type Hand = ();

    fn read(
        &self,
        _hand: &mut (),
        file: usize,
        at: u64,
        bytes: &mut [u8],
    ) -> Result<(), StoreFault> {
        let fault = StoreFault { file };
        let Some(guard) = self.files.get(file).ok_or(fault)?.try_lock() else {
            return Err(fault);
        };
        for place in 0..bytes.len() {
            bytes[place] = *guard.get(place.saturating_add(at as usize)).ok_or(fault)?;
        }
        Ok(())
    }

    fn write(&self, _hand: &mut (), file: usize, at: u64, bytes: &[u8]) -> Result<(), StoreFault> {
        let fault = StoreFault { file };
        let Some(mut guard) = self.files.get(file).ok_or(fault)?.try_lock() else {
            return Err(fault);
        };
        for place in 0..bytes.len() {
            *guard
                .get_mut(place.saturating_add(at as usize))
                .ok_or(fault)? = bytes[place];
        }
        Ok(())
    }

    fn sync(&self, _hand: &mut (), _file: usize) -> Result<(), StoreFault> {
        Ok(())
    }
}

const HIERARCHY: &str = "\
model = \"hierarchical\"
affinity = [{ name = \"A\" }, { name = \"B\", parent = \"A\" }, { name = \"C\", parent = \"A\" }]
space = [{ name = \"s\", size = 16 }]
map = [{ space = \"s\", unit = 2, to = [\"B\", \"C\"] }]
";

const TRACE: &str = "\
message,cost,release,client,think,ops
one,1,0,x,0,set s:0-1 7;set s:2 259
two,1,0,x,0,add s:2 18446744073709551615
three,1,0,x,0,copy s:4 s:2
four,1,0,x,0,swap s:4 s:0;read s:0-3
";

fn settings<'a>(workers: u32) -> Settings<'a>
    requires { IsWorkers workers }
{
    Settings {
        pace: Pace {
            workers,
            tick: 1000,
            loud: false,
        },
        fill: true,
        sync_writes: true,
        syncs: &[],
        partial: false,
    }
}

/// The run of the trace by so many workers.
fn ran<R: Abort + Threads + Wait + Clock + Eprint + Sync>(
    rt: &R,
    alloc: Global,
    store: &Memory,
    workers: u32,
) -> Result<Recorded, RunError>
    requires { IsWorkers workers }
{
    match ran_by(rt, alloc, store, &settings(workers)) {
        Ok(told) => Ok(told),
        Err(Broken { error, told }) => {
            drop(told);
            Err(error)
        }
    }
}

/// The same with these settings, and what is told of a run that breaks off.
fn ran_by<R: Abort + Threads + Wait + Clock + Eprint + Sync>(
    rt: &R,
    alloc: Global,
    store: &Memory,
    settings: &Settings<'_>,
) -> Result<Recorded, Broken> {
    let (hierarchy, trace) = (HIERARCHY.as_bytes(), TRACE.as_bytes());
    let layout = read_numbered(alloc, 1, hierarchy).expect(rt, "hierarchy");
    let accepted = accept_over_layout(rt, alloc, layout, trace).expect(rt, "files");
    let places = Places::of(alloc, &accepted.layout, 8).expect(rt, "places");
    let count = accepted.trace.len() as usize;
    let hands = silent_hands(alloc, count).expect(rt, "memory");
    let files = RunFiles {
        hierarchy,
        trace,
        accepted: &accepted,
    };
    let ran = run_on(rt, alloc, &files, store, &mut (), hands, &places, settings);
    match ran {
        Ok(ran) => Ok(ran.told),
        Err(broken) => Err(broken),
    }
}

#[test]
fn finds_cells(rt: HostRuntime) {
    let (hierarchy, trace) = (HIERARCHY.as_bytes(), TRACE.as_bytes());
    let accepted = accept(rt.alloc(), hierarchy, trace).expect(&rt, "files");
    let places = Places::of(rt.alloc(), &accepted.layout, 8).expect(&rt, "places");
    for (index, file, at) in [
        (0, 0, 0),
        (1, 0, 8),
        (2, 1, 0),
        (3, 1, 8),
        (4, 0, 16),
        (15, 1, 56),
    ] {
        let spot = places.spot(Cell { space: 0, index });
        assert!(rt; spot == Spot { file, at });
    }
}

#[test]
fn leaves_what_the_operations_say(rt: HostRuntime) {
    let store = Memory::of(&rt, rt.alloc(), 2);
    assert!(rt; ran(&rt, rt.alloc(), &store, 4).is_ok());
    // 259 less one is 258; it is copied to s:4 and changes places with the 7 of s:0.
    for (file, at, byte) in [
        (0, 0, 2),
        (0, 1, 1),
        (0, 8, 7),
        (0, 16, 7),
        (1, 0, 2),
        (1, 1, 1),
        (1, 8, 0),
    ] {
        assert_eq!(rt; store.byte(&rt, file, at), Some(byte));
    }
}

#[test]
fn tells_a_fault_of_the_store(rt: HostRuntime) {
    let store = Memory::of(&rt, rt.alloc(), 1);
    match ran(&rt, rt.alloc(), &store, 2) {
        Err(RunError::File(name)) => assert_eq!(rt; name.as_str(), "s.1"),
        _ => panic!(rt; "no fault"),
    }
}

#[test]
fn tells_what_is_left_where_that_is_wanted(rt: HostRuntime) {
    let store = Memory::of(&rt, rt.alloc(), 1);
    let mut settings = settings(2);
    settings.fill = false;
    settings.partial = true;
    let Err(broken) = ran_by(&rt, rt.alloc(), &store, &settings) else {
        panic!(rt; "no fault");
    };
    let Broken { error, told } = broken;
    match error {
        RunError::File(name) => assert_eq!(rt; name.as_str(), "s.1"),
        _ => panic!(rt; "no fault of the store"),
    }
    match told {
        Some(left) => assert!(rt;
            left.measured.as_slice() == "message,cost,release,client,think,ops\n".as_bytes()
        ),
        None => panic!(rt; "nothing is told"),
    }
}
