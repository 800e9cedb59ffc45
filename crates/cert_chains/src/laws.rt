//! What is proved of certified pictures, and of frames that are intact.
ghost use Rattle.cert_chains.specs.Laws.{CertifiedComesFromItself, IntactHasChain, IntactIsKept, StepComesBack};

use cert_picture::certified_law;
use cert_requant::requantised_law;
use mv_planes::references_law;
use mv_recon::{locality_law, samples_law};
use plan_window::steps_law;
use rec_legal::{coded_law, found_law};

/// Each frame that is intact comes back as it was, and has a chain.
pub fn intact_law()
    ensures kept { IntactIsKept }
    ensures chain { IntactHasChain }
{
    // for the proof: the frame of a picture carries its record, and is a source of it
    cert_found::record_law();
    cert_picture::record_law();
    found_law();
    coded_law();
    // what a certified picture was coded from is found in its samples, and depends on nothing but what it uses
    certified_law();
    requantised_law();
    locality_law();
    samples_law();
    // a step of the plan refers to the frames that the picture referred to
    references_law();
    steps_law();
}

/// What a certified picture of a stream was coded by is found in its samples; so a step by its record gives it back, where
/// its references are those of the picture.
pub fn step_law()
    ensures itself { CertifiedComesFromItself }
    ensures back { StepComesBack }
{
    // for the proof: the frame of a picture carries its record, and is a source of it
    cert_found::record_law();
    cert_picture::record_law();
    found_law();
    coded_law();
    // what a certified picture was coded from is found in its samples, and depends on nothing but what it uses
    certified_law();
    requantised_law();
    locality_law();
    samples_law();
}
