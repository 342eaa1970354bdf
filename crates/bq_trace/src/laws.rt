//! Laws of a trace that comes in pieces.
ghost use Rattle.bq_trace.specs.Laws.{TracePiecesJoin};
ghost use Rattle.bq_trace.specs.Sessions.{SessionAnswers};

/// Two pieces, one after the other, do what their join does.
pub fn pieces_join()
    ensures { TracePiecesJoin }
{}

/// A session that begins, is fed some pieces and is finished has written the answers to the joined pieces, if each call did
/// what its contract says. A replay of the joined pieces writes these answers, too.
pub fn session_answers()
    ensures { SessionAnswers }
{}
