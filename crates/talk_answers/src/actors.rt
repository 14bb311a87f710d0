// The actors of a file.
ghost use Rattle.std.specs.Prelude.{◌≡◌, flat_map};
ghost use Rattle.adept_io.specs.Written.{Gives};
ghost use Rattle.talk_answers.specs.Standings.{actor_line, actors_text, roles_text, spaced_role};

use adept_io::{Sink, put, put_pieces};
use file_model::{ActorDecl, File};
use itoa::Buffer;
use report_words::role_word;

/// The actors, with their roles.
pub fn put_actors<K: Sink>(sink: &mut K, ok: bool, file: &File) -> bool
    ensures { Gives K.written K.faults ok result sink.old sink.new (actors_text file.now) }
{
    put_actor_lines(sink, ok, file, file.actors.as_slice())
}

fn put_actor_lines<K: Sink>(sink: &mut K, ok: bool, file: &File, actors: &[ActorDecl]) -> bool
    ensures { Gives K.written K.faults ok result sink.old sink.new (flat_map (actor_line file.now) actors.now) }
{
    let mut well = ok;
    for decl in actors {
        well = put_actor_line(sink, well, file, decl);
    }
    well
}

#[tactic(auto, using(adept_io::proofs::Sent::gives_then))]
fn put_actor_line<K: Sink>(sink: &mut K, ok: bool, file: &File, decl: &ActorDecl) -> bool
    ensures { Gives K.written K.faults ok result sink.old sink.new (actor_line file.now decl.now) }
{
    let ok = put(sink, ok, b"actor ");
    let ok = put(sink, ok, decl.name.bytes());
    let ok = put_roles(sink, ok, file, decl.roles.as_slice());
    put(sink, ok, b"\n")
}

#[tactic(auto, using(adept_io::proofs::Sent::gives_nothing))]
fn put_roles<K: Sink>(sink: &mut K, ok: bool, file: &File, roles: &[u32]) -> bool
    ensures { Gives K.written K.faults ok result sink.old sink.new (roles_text file.now roles.now) }
{
    match roles {
        [] => ok,
        _ => {
            let ok = put(sink, ok, b" roles");
            put_each_role(sink, ok, file, roles)
        }
    }
}

fn put_each_role<K: Sink>(sink: &mut K, ok: bool, file: &File, roles: &[u32]) -> bool
    ensures { Gives K.written K.faults ok result sink.old sink.new (flat_map (spaced_role file.now) roles.now) }
{
    let mut well = ok;
    for role in roles {
        well = put_spaced_role(sink, well, file, *role);
    }
    well
}

fn put_spaced_role<K: Sink>(sink: &mut K, ok: bool, file: &File, role: u32) -> bool
    ensures { Gives K.written K.faults ok result sink.old sink.new (spaced_role file.now role) }
{
    let mut buffer = Buffer::new();
    put_pieces(sink, ok, &[b" ", role_word(file, role, &mut buffer)])
}
