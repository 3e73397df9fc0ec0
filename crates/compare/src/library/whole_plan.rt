// The library's answers on whole plans.
use crate::kind::Kind;
use crate::refused::Place;
use analysis::admitted::AdmittedPlan;
use report::whole;
use server::deferrable::Deferrable;
use server::kind::Server;
use server::polling::Polling;
use server::sporadic::Sporadic;

// How many lines the plan of these bytes has, with their times in the result memory; or its fault.
pub(crate) fn plan_times(plan: &[u8], numbers: &mut [u32]) -> Result<usize, Place> {
    Ok(whole::plan_times(plan, numbers)? as usize)
}

// The plan of these bytes, admitted; or its refusal.
pub(crate) fn admitted<S: Server>(plan: &[u8]) -> Result<AdmittedPlan<S>, Place> {
    let mut draft = whole::read_plan::<S>(plan)?;
    let mut admitted = AdmittedPlan::new();
    admitted.admit(&mut draft)?;
    Ok(admitted)
}

// How many lines the plan of these bytes has, admitted for a kind; or its refusal.
pub(crate) fn admission(kind: Kind, plan: &[u8]) -> Result<usize, Place> {
    Ok(match kind {
        Kind::Polling => admitted::<Polling>(plan)?.len(),
        Kind::Deferrable => admitted::<Deferrable>(plan)?.len(),
        Kind::Sporadic => admitted::<Sporadic>(plan)?.len(),
    })
}
